//! Sets of kinds.
ghost use Rattle.std.specs.Prelude.{◌≡◌};
ghost use Rattle.yarn_types.specs.KindSets.{holds, shared, has_some, lone, only};

use yarn_value::Kind;

/// Which kinds are still possible.
#[derive(Clone, Copy, Debug, PartialEq, Eq)]
pub struct KindSet {
    pub number: bool,
    pub string: bool,
    pub truth: bool,
}

impl KindSet {
    pub(crate) const ALL: KindSet = KindSet {
        number: true,
        string: true,
        truth: true,
    };

    /// This kind alone.
    pub(crate) fn only(kind: Kind) -> KindSet
        ensures { result ≡ only kind }
    {
        KindSet {
            number: kind == Kind::Number,
            string: kind == Kind::Str,
            truth: kind == Kind::Truth,
        }
    }

    /// The kinds that both sets hold.
    pub(crate) fn shared_with(self, other: KindSet) -> KindSet
        ensures { result ≡ shared self other }
    {
        KindSet {
            number: self.number && other.number,
            string: self.string && other.string,
            truth: self.truth && other.truth,
        }
    }

    pub(crate) fn has_some(self) -> bool
        ensures { result ≡ has_some self }
    {
        self.number || self.string || self.truth
    }

    pub(crate) fn holds(self, kind: Kind) -> bool
        ensures { result ≡ holds self kind }
    {
        match kind {
            Kind::Number => self.number,
            Kind::Str => self.string,
            Kind::Truth => self.truth,
        }
    }

    /// The kind of a set that holds one, and none of any other set.
    pub(crate) fn lone(self) -> Option<Kind>
        ensures { result ≡ lone self }
    {
        match (self.number, self.string, self.truth) {
            (true, false, false) => Some(Kind::Number),
            (false, true, false) => Some(Kind::Str),
            (false, false, true) => Some(Kind::Truth),
            _ => None,
        }
    }
}
