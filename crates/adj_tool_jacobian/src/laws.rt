//! What the command never answers.

ghost use Rattle.adj_tool_jacobian.specs.Jacobian.{NeverFull};

/// No answer says that the tape is full: the program of a user has no runtime calls, so no run of it looks for room.
pub fn never_full()
    ensures status { NeverFull }
{}
