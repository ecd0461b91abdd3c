//! Where the items of a file may stand.
ghost use Rattle.std.specs.Prelude.{◌≡◌, true};
ghost use Rattle.yarn_items.specs.declared.item.Mode.TheVariants.{InBody};
ghost use Rattle.yarn_nodes.specs.Reading.{fault_of_end, fault_of_cut};
ghost use Rattle.yarn_nodes.specs.Structure.{mode_of, header_behind, tag_fault as fault_of_tag, body_fault as fault_of_body, cut_fault as fault_of_rest};

use yarn_blocks::Verdict;
use yarn_items::Mode;

/// What stands before a line of a file.
#[derive(Clone, Copy)]
pub(crate) enum Stand {
    /// Nothing but hashtags of the file.
    Front,
    /// The `===` of a node.
    Between,
    /// Headers that wait for their body.
    Headed,
    /// A `---`, whose body goes on.
    Inside,
}

impl Stand {
    pub(crate) fn mode(self) -> Mode
        ensures { result ≡ mode_of self }
    {
        match self {
            Stand::Front | Stand::Between | Stand::Headed => Mode::InHeaders,
            Stand::Inside => Mode::InBody,
        }
    }

    /// Whether a body is open there.
    pub(crate) fn is_inside(self) -> bool
        ensures { result ≡ true → mode_of self ≡ InBody }
    {
        match self {
            Stand::Front | Stand::Between | Stand::Headed => false,
            Stand::Inside => true,
        }
    }

    pub(crate) fn behind_header(self) -> Stand
        ensures { result ≡ header_behind self }
    {
        match self {
            Stand::Inside => Stand::Inside,
            Stand::Front | Stand::Between | Stand::Headed => Stand::Headed,
        }
    }

    /// The line of a hashtag of the file, where it may not stand there.
    pub(crate) fn tag_fault(self, line: u32) -> Option<u32>
        ensures { result ≡ fault_of_tag self line }
    {
        match self {
            Stand::Front => None,
            Stand::Between | Stand::Headed | Stand::Inside => Some(line),
        }
    }

    /// The line that is misplaced, where a `===` ends a body that is so.
    pub(crate) fn end_fault(self, line: u32, body: Verdict) -> Option<u32>
        ensures { result ≡ fault_of_end self line body }
    {
        match self {
            Stand::Front | Stand::Between | Stand::Headed => Some(line),
            Stand::Inside => body_fault(line, body),
        }
    }

    /// The line that is misplaced, where the file ends behind a body that is so.
    pub(crate) fn cut_fault(self, end: u32, body: Verdict) -> Option<u32>
        ensures { result ≡ fault_of_cut self end body }
    {
        match self {
            Stand::Front | Stand::Between => None,
            Stand::Headed => Some(end),
            Stand::Inside => Some(cut_line(end, body)),
        }
    }
}

fn body_fault(end: u32, body: Verdict) -> Option<u32>
    ensures { result ≡ fault_of_body end body }
{
    match body {
        Verdict::Block(_) => None,
        Verdict::Bad(_, line) => Some(line),
        Verdict::Unfinished => Some(end),
    }
}

fn cut_line(end: u32, body: Verdict) -> u32
    ensures { result ≡ fault_of_rest end body }
{
    match body {
        Verdict::Bad(_, line) => line,
        Verdict::Block(_) | Verdict::Unfinished => end,
    }
}
