//! What is found of a frame when it comes.

ghost use Rattle.std.specs.Prelude.{◌≡◌, ◌++◌, IfOk, OnOk, option_to_list};
ghost use Rattle.afdx_lawful.specs.OneSide.{told_copy, told_heard};

use crate::finding::{Flaw, SenderFinding};
use crate::track::Alone;
use std::alloc::{AllocError, Global};

/// What is found of a frame by its copy on the other network.
#[derive(Clone, Copy, Debug, PartialEq, Eq)]
pub(crate) enum Copied {
    /// Nothing: it came in time, or is waited for.
    Well,
    /// It isn't the same.
    Differs,
    /// It came so many ns too late.
    Late(u64),
}

impl Copied {
    /// What is found of the frame of this line.
    fn finding(self, line: u64) -> Option<SenderFinding>
        ensures { option_to_list result ≡ told_copy line self }
    {
        match self {
            Copied::Well => None,
            Copied::Differs => Some(SenderFinding::Differs(line)),
            Copied::Late(by) => Some(SenderFinding::Apart(line, by)),
        }
    }
}

/// Puts one more behind the others, if there is one. Fails only out of memory.
fn put(found: &mut Vec<SenderFinding>, finding: Option<SenderFinding>) -> Result<(), AllocError>
    ensures { OnOk result (found.new.items ≡ found.old.items ++ option_to_list finding) }
{
    if let Some(finding) = finding {
        found.push(finding)?;
    }
    Ok(())
}

/// What is found of a frame when it comes.
#[derive(Clone, Copy, Debug)]
pub struct HeardFrame {
    pub(crate) alone: Alone,
    pub(crate) copied: Copied,
}

impl HeardFrame {
    ghost use Rattle.std.specs.Prelude.{ℕ, option_map};
    ghost use Rattle.afdx_lawful.specs.Alone.{is_empty};
    ghost use Rattle.afdx_lawful.specs.declared.finding.SenderFinding.TheVariants.{Unlawful};

    /// Nothing is found but what is wrong with the frame by itself.
    pub(crate) fn damaged(flaw: Option<Flaw>) -> HeardFrame
        ensures { (line : ℕ) → told_heard line result
            ≡ option_to_list (option_map (Unlawful line) flaw) }
    {
        let alone = Alone {
            flaw,
            number: None,
            soon: None,
        };
        HeardFrame {
            alone,
            copied: Copied::Well,
        }
    }

    /// All that is found of the frame of this line, in its order. Fails only out of memory.
    pub fn findings(&self, alloc: Global, line: u64) -> Result<Vec<SenderFinding>, AllocError>
        ensures { IfOk result (λ found. found.items ≡ told_heard line self.now) }
    {
        let mut found = Vec::new(alloc);
        put(&mut found, self.alone.unlawful(line))?;
        put(&mut found, self.alone.other_number(line))?;
        put(&mut found, self.alone.too_soon(line))?;
        put(&mut found, self.copied.finding(line))?;
        Ok(found)
    }

    /// Whether nothing is found.
    pub fn is_quiet(&self) -> bool
        ensures { (line : ℕ) → result ≡ is_empty (told_heard line self.now) }
    {
        self.alone.is_quiet() && self.copied == Copied::Well
    }
}
