//! What holds of every tape.
ghost use Rattle.yarn_host.specs.Laws.{CoursesCompose};

/// What a table's tape tells of one course of asks and of the next, it tells of both: of a loop and of a recursion as of
/// one ask. The rule is docs/guide-hosts.md, "What the tape tells".
pub fn courses_compose()
    ensures { CoursesCompose }
{}
