//! A pass over marks that keeps nothing of what is read but what is open.
ghost use Rattle.std.specs.Prelude.{◌≡◌, [], true, length};
ghost use Rattle.yarn_blocks.specs.declared.mark.Shape.TheVariants as shape;
ghost use Rattle.yarn_blocks.specs.declared.outline.Outline.{Outline as OutlineOf};
ghost use Rattle.yarn_blocks.specs.Levels.{ends_level};
ghost use Rattle.yarn_blocks.specs.Outline.{no_excess, with_depth, with_count, one_more as one_more_of, outline_clause, outline_end, outline_taken, outline_placed, outline_step, closed_outline, settled_outline, levels_end, verdict_end, Continues};

use crate::level::Level;
use crate::levels::Levels;
use crate::mark::{Mark, Shape};
use crate::verdict::{Excess, Verdict};
use std::alloc::Global;
use yarn_base::Memory;

/// What is open, and what is over a limit so far.
#[derive(Drop)]
pub(crate) struct Outline {
    pub(crate) levels: Levels,
    /// How many options the group has that may go on, where 65 stands for more too.
    pub(crate) count: u8,
    pub(crate) excess: Excess,
}

/// Why no further mark is taken.
#[derive(Clone, Copy, Debug, PartialEq, Eq)]
pub(crate) enum Stop {
    /// The line can't stand there.
    Refused,
    Memory,
}

impl From<Memory> for Stop {
    ghost use Rattle.std.specs.Prelude.{◌≡◌};
    ghost use Rattle.yarn_blocks.specs.declared.outline.Stop.TheVariants.{Memory};

    ghost from_gives = { λ _ e. e ≡ Memory };

    fn from(_: Memory) -> Stop {
        Stop::Memory
    }
}

/// One option more.
fn one_more(count: u8) -> u8
    ensures { result ≡ one_more_of count }
{
    if count > 64 { count } else { count + 1 }
}

/// With a line at this depth.
fn at_depth(excess: Excess, depth: usize, line: u32) -> Excess
    ensures { result ≡ with_depth excess depth line }
{
    Excess {
        too_deep: excess
            .too_deep
            .or(if depth > 64 { Some(line) } else { None }),
        too_many: excess.too_many,
    }
}

/// With an option behind so many of its group.
fn behind(excess: Excess, before: u8, line: u32) -> Excess
    ensures { result ≡ with_count excess before line }
{
    Excess {
        too_deep: excess.too_deep,
        too_many: excess
            .too_many
            .or(if before == 64 { Some(line) } else { None }),
    }
}

impl Outline {
    /// Nothing is open.
    pub(crate) fn new(alloc: Global) -> Outline
        ensures { result ≡ record { levels = []; count = 0; excess = no_excess } }
    {
        Outline {
            levels: Levels::new(alloc),
            count: 0,
            excess: Excess {
                too_deep: None,
                too_many: None,
            },
        }
    }

    /// The innermost option ends.
    fn close(self, indent: u32) -> Outline
        requires { ends_level indent self.levels ≡ true }
        ensures { result ≡ closed_outline self }
    {
        let Outline {
            mut levels,
            count: _,
            excess,
        } = self;
        match levels.pop() {
            Some(Level::OfOption(_, before)) => Outline {
                levels,
                count: one_more(before),
                excess,
            },
            _ => unreachable!(),
        }
    }

    /// The options end that a line with this indent ends.
    fn settle(self, indent: u32) -> Outline
        ensures { result ≡ settled_outline indent self }
    {
        let mut outline = self;
        while outline.levels.is_ended_by(indent) {
            outline = outline.close(indent);
        }
        outline
    }

    /// A statement that is no option and no part of an `if`.
    fn take_statement(self, line: u32) -> Result<Outline, Stop>
        ensures { Continues result (outline_taken self.levels self.count self.excess line 0 shape.Statement) }
    {
        let Outline {
            levels,
            count: _,
            excess,
        } = self;
        let excess = at_depth(excess, levels.len(), line);
        Ok(Outline {
            levels,
            count: 0,
            excess,
        })
    }

    /// An option.
    fn take_offer(self, line: u32, indent: u32) -> Result<Outline, Stop>
        ensures { Continues result (outline_taken self.levels self.count self.excess line indent shape.Offer) }
    {
        let Outline {
            mut levels,
            count,
            excess,
        } = self;
        let excess = behind(at_depth(excess, levels.len(), line), count, line);
        levels.push(Level::OfOption(indent, count))?;
        Ok(Outline {
            levels,
            count: 0,
            excess,
        })
    }

    /// An `if`.
    fn take_if(self, line: u32) -> Result<Outline, Stop>
        ensures { Continues result (outline_taken self.levels self.count self.excess line 0 shape.If) }
    {
        let Outline {
            mut levels,
            count: _,
            excess,
        } = self;
        let excess = at_depth(excess, levels.len(), line);
        levels.push(Level::OfClause)?;
        Ok(Outline {
            levels,
            count: 0,
            excess,
        })
    }

    /// An `elseif` or an `else`, which opens the level.
    fn take_clause(self, line: u32, level: Level) -> Result<Outline, Stop>
        ensures { Continues result (outline_clause self.levels self.excess line level) }
    {
        let Outline {
            mut levels,
            count: _,
            excess,
        } = self;
        match levels.pop() {
            Some(Level::OfClause) => {
                let excess = at_depth(excess, levels.len(), line);
                levels.push(level)?;
                Ok(Outline {
                    levels,
                    count: 0,
                    excess,
                })
            }
            Some(Level::OfOption(_, _)) => Err(Stop::Refused),
            Some(Level::OfElse) => Err(Stop::Refused),
            None => Err(Stop::Refused),
        }
    }

    /// An `endif`.
    fn take_end(self, line: u32) -> Result<Outline, Stop>
        ensures { Continues result (outline_end self.levels self.excess line) }
    {
        let Outline {
            mut levels,
            count: _,
            excess,
        } = self;
        match levels.pop() {
            Some(Level::OfOption(_, _)) => Err(Stop::Refused),
            None => Err(Stop::Refused),
            Some(Level::OfClause) => {
                let excess = at_depth(excess, levels.len(), line);
                Ok(Outline {
                    levels,
                    count: 0,
                    excess,
                })
            }
            Some(Level::OfElse) => {
                let excess = at_depth(excess, levels.len(), line);
                Ok(Outline {
                    levels,
                    count: 0,
                    excess,
                })
            }
        }
    }

    /// A line where it stands deep enough.
    fn take(self, mark: Mark) -> Result<Outline, Stop>
        ensures { Continues result (outline_taken self.levels self.count self.excess mark.line mark.indent mark.shape) }
    {
        match mark.shape {
            Shape::Statement => self.take_statement(mark.line),
            Shape::Offer => self.take_offer(mark.line, mark.indent),
            Shape::If => self.take_if(mark.line),
            Shape::ElseIf => self.take_clause(mark.line, Level::OfClause),
            Shape::Else => self.take_clause(mark.line, Level::OfElse),
            Shape::EndIf => self.take_end(mark.line),
        }
    }

    /// One line.
    pub(crate) fn take_next(self, mark: Mark) -> Result<Outline, Stop>
        ensures { Continues result (outline_step self mark) }
    {
        let settled = self.settle(mark.indent);
        if u64::from(mark.indent) < settled.levels.low() {
            return Err(Stop::Refused);
        }
        settled.take(mark)
    }

    /// At the end each open option ends, and no `if` may be open.
    pub(crate) fn finish(self) -> Verdict
        ensures { result ≡ verdict_end self.levels self.excess }
    {
        let Outline {
            mut levels,
            count: _,
            excess,
        } = self;
        while levels.is_ended_by(0) {
            let _ = levels.pop();
        }
        if levels.len() == 0 {
            Verdict::Block(excess)
        } else {
            Verdict::Unfinished
        }
    }
}
