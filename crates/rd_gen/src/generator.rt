//! The generator of a trace.
ghost use Rattle.std.specs.Prelude.{◌≡◌, ◌≤◌, [], ◌∷◌, false, true, IfOk, OnOk, OnErr, IfSome, IsTrue};
ghost use Rattle.rd_event.specs.Items.{IsSpellable};
ghost use Rattle.rd_gen.specs.Generated.{generated};
ghost use Rattle.rd_gen.specs.Generator.{behind_first, first_of};
ghost use Rattle.rd_gen.specs.declared.counts.TheConstants.{MOST_CALLS};

use crate::calls::{
    next_number, put_acquire, put_call, put_closing, put_join, put_opening, put_release,
};
use rd_base::{NoMemory, SpareList};
use rd_event::Line;
use rd_kinds::Dictionary;
use rd_object::RefObject;
use std::alloc::Global;
use std::marker::Model;

// Where a generator stands.
#[derive(Clone, Copy)]
pub(crate) enum Stage {
    /// so many of the first lines were given
    Opening(u8),
    /// the next call comes
    Turning,
    /// its lock was taken
    Calling,
    /// the call was given, and its lock is to be given back
    Releasing,
    /// so many of the last lines were given
    Closing(u8),
}

/// Makes the lines of a trace, one after another. Contracts see it as the lines that it has still to give, and whether it has failed.
#[derive(Drop)]
pub struct Generator {
    alloc: Global,
    locked: bool,
    // the calls that aren't begun
    left: u32,
    // that of the last call that was begun
    number: u32,
    stage: Stage,
    dictionary: Dictionary,
    // the memory of the last call's values
    spare: SpareList,
    failed: bool,
}

impl Model for Generator {
    ghost use Rattle.std.specs.Prelude.{◌<◌};
    ghost use Rattle.rd_gen.specs.Generator.{Generating, IsStage, lines_from};

    ghost Value = { Generating };

    ghost view = { λ g. record { lines = lines_from g.stage g.locked g.left g.number g.dictionary; failed = g.failed } };

    ghost invariant = { λ g. (g.number < 65536) × IsStage g.stage };
}

impl Generator {
    /// A generator of the trace of this number with so many calls: at most 10,000,000. It takes no memory.
    #[tactic(auto, unfolding(crate::specs::Generated::generated))]
    pub fn new(alloc: Global, number: u64, count: u32) -> Generator
        requires { count ≤ MOST_CALLS }
        ensures { result ≡ record { lines = generated number count; failed = false } }
    {
        Generator {
            alloc,
            locked: number % 2 == 0,
            left: count,
            number: (number % 65536) as u32,
            stage: Stage::Opening(0),
            dictionary: Dictionary::start(alloc),
            spare: SpareList::new(alloc),
            failed: false,
        }
    }

    // Makes the line the next one, where it has not failed, and answers whether there is one.
    fn put_line(&mut self, line: &mut Line) -> Result<bool, NoMemory>
        ensures next { IfOk result
            (λ found. IsTrue found → self.old.lines ≡ line.new ∷ self.new.lines) }
        ensures end { IfOk result
            (λ found. found ≡ false → (self.old.lines ≡ []) × (self.new.lines ≡ [])) }
        ensures spellable { IfOk result (λ found. IsTrue found → IsSpellable line.new) }
        ensures failed { self.new.failed ≡ self.old.failed }
    {
        match self.stage {
            Stage::Opening(given) => {
                self.stage = if given == 6 {
                    Stage::Turning
                } else {
                    Stage::Opening(given + 1)
                };
                put_opening(given, line);
                Ok(true)
            }
            Stage::Turning => {
                if self.left == 0 {
                    self.stage = Stage::Closing(1);
                    put_join(0, line);
                    return Ok(true);
                }
                self.left -= 1;
                self.number = next_number(self.number);
                if self.locked {
                    self.stage = Stage::Calling;
                    put_acquire(self.number / 16, line);
                    return Ok(true);
                }
                put_call(
                    self.alloc,
                    &mut self.dictionary,
                    &mut self.spare,
                    self.number / 16,
                    line,
                )?;
                Ok(true)
            }
            Stage::Calling => {
                self.stage = Stage::Releasing;
                put_call(
                    self.alloc,
                    &mut self.dictionary,
                    &mut self.spare,
                    self.number / 16,
                    line,
                )?;
                Ok(true)
            }
            Stage::Releasing => {
                self.stage = Stage::Turning;
                put_release(self.number / 16, line);
                Ok(true)
            }
            Stage::Closing(given) => {
                if given == 5 {
                    return Ok(false);
                }
                self.stage = Stage::Closing(given + 1);
                put_closing(self.alloc, &mut self.dictionary, given, line)?;
                Ok(true)
            }
        }
    }

    /// Makes the line the next one, in its place, and answers whether there is one: `false` comes exactly behind the last. Each has a
    /// spelling. After want of memory each further call answers it too. After another answer than `true` the line may be anything.
    pub fn next_into(&mut self, line: &mut Line) -> Result<bool, NoMemory>
        ensures next { IfOk result
            (λ found. IsTrue found → self.old.lines ≡ line.new ∷ self.new.lines) }
        ensures end { IfOk result
            (λ found. found ≡ false → (self.old.lines ≡ []) × (self.new.lines ≡ [])) }
        ensures spellable { IfOk result (λ found. IsTrue found → IsSpellable line.new) }

        // after an `Err` it has failed, and answers nothing else
        ensures well { OnOk result (self.old.failed ≡ false × self.new.failed ≡ false) }
        ensures failed { OnErr result (self.new.failed ≡ true) }
    {
        if self.failed {
            return Err(NoMemory);
        }
        let found = self.put_line(line);
        self.failed = found.is_err();
        found
    }

    /// The next line, which has a spelling; `None` exactly behind the last. After want of memory each further call answers it too.
    pub fn next_line(&mut self) -> Result<Option<Line>, NoMemory>
        ensures line { IfOk result (λ line. line ≡ first_of self.old.lines) }
        ensures rest { OnOk result (self.new.lines ≡ behind_first self.old.lines) }
        ensures spellable { IfOk result (λ line. IfSome line IsSpellable) }

        // after an `Err` it has failed, and answers nothing else
        ensures well { OnOk result (self.old.failed ≡ false × self.new.failed ≡ false) }
        ensures failed { OnErr result (self.new.failed ≡ true) }
    {
        let mut line = Line::Skip;
        if self.next_into(&mut line)? {
            Ok(Some(line))
        } else {
            Ok(None)
        }
    }
}
