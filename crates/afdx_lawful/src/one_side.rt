//! The frames of a source on one network, and one more of them.

ghost use Rattle.std.specs.Prelude.{◌≡◌, ◌≤◌, ◌<◌, ◌^◌, List, ◌∷◌, length, option_map, Some};
ghost use Rattle.std.specs.Prelude.{IfOk, IfSome, OnErr, OnOk};
ghost use Rattle.afdx_frame.specs.declared.link.Side.{Side};
ghost use Rattle.afdx_frame.specs.Times.{latest_listed};
ghost use Rattle.afdx_lawful.specs.Accepted.{ComeUpTo};
ghost use Rattle.afdx_lawful.specs.Alone.{number_in};
ghost use Rattle.afdx_lawful.specs.Courses.{oldest};
ghost use Rattle.afdx_lawful.specs.Flaws.{flaw_of};
ghost use Rattle.afdx_lawful.specs.Judged.{found_of, found_with};
ghost use Rattle.afdx_lawful.specs.LastCame.{AreLast};
ghost use Rattle.afdx_lawful.specs.OneSide.{HasToWait, IsCame, IsNext, StandOn, StandsOn};
ghost use Rattle.afdx_lawful.specs.OneSide.{WaitsToo, told_copy, told_heard};
ghost use Rattle.afdx_lawful.specs.Partners.{Waiting};
ghost use Rattle.afdx_lawful.specs.Rings.{all_as, waiting_as};
ghost use Rattle.afdx_lawful.specs.Sources.{Came, Source as Terms};
ghost use Rattle.afdx_lawful.specs.Ways.{AreTerms};

use crate::copies::is_copy;
use crate::finding::Flaw;
use crate::heard::{Copied, HeardFrame};
use crate::last::LastCame;
use crate::late::too_late;
use crate::partners::take_partner;
use crate::track::Track;
use crate::waiting_frames::WaitingFrames;
use crate::waits::Waits;
use crate::ways::SourceTerms;
use crate::whole::Whole;
use afdx_conform::{CheckedBytes, Spare};
use std::alloc::{AllocError, Global};

/// What is found of a frame by its partner.
fn compare(terms: &SourceTerms, whole: Whole<'_>, partner: &Waits) -> Copied
    ensures { (s : Terms) (side by : Side) (x : Came) → AreTerms s terms.now →
        IsCame side whole.entry x →
        told_copy whole.entry.line result ≡ found_with s x (Some (waiting_as by partner.now)) }
{
    if !is_copy(whole.frame, partner.bytes.frame()) {
        return Copied::Differs;
    }
    let apart = terms.apart.of(&terms.limits, whole.frame.length());
    match too_late(&terms.limits, apart, whole.time, partner.time) {
        Some(by) => Copied::Late(by),
        None => Copied::Well,
    }
}

/// The frames of one side: what is known of those that came, and those that wait for their copies,
/// the oldest first.
#[derive(Debug, Drop)]
pub(crate) struct OneSide {
    track: Track,
    pub last: LastCame,
    pub waiting: WaitingFrames,
}

impl OneSide {
    ghost use Rattle.std.specs.Prelude.{[], None, if◌then◌else◌};
    ghost use Rattle.afdx_lawful.specs.Alone.{first_number};

    /// Nothing came yet; the first number is 0, unless frames came before the recordings.
    pub fn new(alloc: Global, is_begun: bool) -> OneSide
        ensures { (s : Terms) (side : Side) →
            first_number s s.by.start ≡ (if is_begun then None else Some 0) →
            StandsOn s side [] [] result }
    {
        OneSide {
            track: Track::new(is_begun),
            last: LastCame::new(),
            waiting: WaitingFrames::new(alloc),
        }
    }

    /// When, in ns, the oldest frame came that waits.
    pub fn oldest(&self) -> Option<u64>
        ensures time { (side : Side) → result ≡ option_map (λ y. y.frame.time)
            (oldest (all_as side self.now.waiting)) }
        ensures listed { IfSome result (λ time. time ≤ latest_listed) }
    {
        self.waiting.oldest()
    }

    /// How many frames wait.
    pub fn held(&self) -> usize
        ensures held { result ≡ length self.now.waiting }
        ensures few { result < 2 ^ 63 }
    {
        self.waiting.count()
    }

    /// A frame waits for its copy. The error says that memory was refused.
    fn wait(
        &mut self,
        spare: &mut Spare,
        whole: Whole<'_>,
        is_quiet: bool,
    ) -> Result<(), AllocError>
        ensures track { self.new.track ≡ self.old.track }
        ensures last { self.new.last ≡ self.old.last }
        ensures refused { OnErr result (self.new.waiting ≡ self.old.waiting) }
        ensures waits { (side : Side) (x : Came) → IsCame side whole.entry x →
            OnOk result (WaitsToo side self.old.waiting x is_quiet self.new.waiting) }
    {
        let bytes = CheckedBytes::of(spare, whole.frame)?;
        self.waiting.push(Waits {
            line: whole.line,
            time: whole.time,
            number: whole.number,
            bytes,
            is_quiet,
        })?;
        Ok(())
    }

    /// What is known behind a frame of this time, in ns, and number.
    fn pass(&mut self, track: Track, time: u64, number: u8)
        requires { time ≤ latest_listed }
        ensures track { self.new.track ≡ track }
        ensures last { (xs : List Came) (x : Came) → x.time ≡ time → number_in x ≡ number →
            AreLast xs self.old.last → AreLast (x ∷ xs) self.new.last }
        ensures waiting { self.new.waiting ≡ self.old.waiting }
    {
        self.track = track;
        self.last.come(time, number);
    }
}

/// One more frame comes on a side, which isn't damaged: what is found of it, of its own side first.
/// The error says that memory was refused; then nothing has changed, and the frame is one that has
/// to wait.
pub(crate) fn hear(
    own: &mut OneSide,
    other: &mut OneSide,
    terms: &SourceTerms,
    whole: Whole<'_>,
    flaw: Option<Flaw>,
    spare: &mut Spare,
) -> Result<HeardFrame, AllocError>
    ensures found { (s : Terms) (side : Side) (past : List Came) (gone : Side → List Waiting)
        (x : Came) → AreTerms s terms.now → IsCame side whole.entry x → flaw ≡ flaw_of s x →
        IsNext s side x gone own.old other.old → StandOn s side past gone own.old other.old →
        IfOk result (λ heard. told_heard whole.entry.line heard ≡ found_of s past x) }
    ensures stand { (s : Terms) (side : Side) (past : List Came) (gone : Side → List Waiting)
        (x : Came) → AreTerms s terms.now → IsCame side whole.entry x → flaw ≡ flaw_of s x →
        IsNext s side x gone own.old other.old → ComeUpTo x.time past →
        StandOn s side past gone own.old other.old →
        OnOk result (StandOn s side (x ∷ past) gone own.new other.new) }
    ensures refused { (s : Terms) (side : Side) (past : List Came)
        (gone : Side → List Waiting) → StandOn s side past gone own.old other.old →
        OnErr result (StandOn s side past gone own.new other.new) }
    ensures waits { (s : Terms) (side : Side) (past : List Came) (gone : Side → List Waiting)
        (x : Came) → AreTerms s terms.now → IsCame side whole.entry x →
        IsNext s side x gone own.old other.old →
        StandOn s side past gone own.old other.old → OnErr result (HasToWait s past x) }
{
    let mut track = own.track;
    let alone = track.come(&terms.limits, whole.time, flaw, whole.number);
    if !terms.is_paired {
        own.pass(track, whole.time, whole.number);
        return Ok(HeardFrame {
            alone,
            copied: Copied::Well,
        });
    }
    let partner = take_partner(&mut other.waiting, whole.number);
    match partner {
        Some(partner) => {
            own.pass(track, whole.time, whole.number);
            let copied = compare(terms, whole, &partner);
            partner.give_back(spare);
            Ok(HeardFrame { alone, copied })
        }
        None => {
            own.wait(spare, whole, alone.is_quiet())?;
            own.pass(track, whole.time, whole.number);
            Ok(HeardFrame {
                alone,
                copied: Copied::Well,
            })
        }
    }
}
