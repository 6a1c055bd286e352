//! Laws over the definitions, which no program runs.
ghost use Rattle.log_manager.specs.Groups.{EndsTogether};

/// What ends with a block ends with a group: so a crash, which leaves whole blocks, leaves no part of a group.
pub fn groups_law()
    ensures { EndsTogether }
{}
