//! What is asked for.

ghost use Rattle.std.specs.Prelude.{◌≤◌};

use adj_tree::Name;

/// The unit that is run, the most statements that it may execute, and the most words that its tape may hold.
pub struct RunRequest {
    pub head: Name,
    pub budget: u64,
    pub room: u64,
    pub ghost takeable: { room ≤ 134217728 },
}

impl Drop for RunRequest {
    fn drop(self) {
        let RunRequest {
            head: _head,
            budget: _,
            room: _,
        } = self;
    }
}
