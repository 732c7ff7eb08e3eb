//! Laws about the definitions.

ghost use Rattle.adj_tool_check.specs.Agreeing.{CheckAgrees, CheckTraps};

use law_rooms::advance_law;

/// Where `check` is done, both products are equal, the advances are the least costs of the original's runs of the loops that are
/// reversed by schedules, and the adjoint never trapped; and a trap that it tells of is the original's.
pub fn check_law()
    ensures agrees { CheckAgrees }
    ensures traps { CheckTraps }
{
    advance_law();
}
