//! Limiters that count what they permitted: amounts by kind, what is held, taken, given back and
//! released, limiters with caps, and a quota.
ghost use Rattle.std.specs.Prelude.{◌≡◌, None};
ghost use Rattle.wasmi_meter.specs.Capped.{Capped, HoldsMore, IsWithinCaps, Takes, amount_of, cap_of, capped_quota, capped_rules, nothing, without_last, GivesBack, Releases, Reserves};
ghost use Rattle.wasmi_meter.specs.CappedProofs.{asked_reserves, noticed_gives_back};
ghost use Rattle.wasmi_meter.specs.declared.quota.Holdings.{Holdings};
ghost use Rattle.wasmi_meter.specs.declared.limiter.Kind.TheVariants.{Bytes, Elements};
ghost use Rattle.wasmi_meter.specs.Limiter.{Question, Answer, Failure, NoticeAnswer, kind_of};

use crate::error::LimiterError;
use crate::limiter::{Kind, LimiterByKind, ResourceLimiter};

/// An amount of bytes of linear memories, and one of elements of tables.
#[derive(Clone, Copy, Debug, Default)]
pub struct Amounts {
    /// The bytes of linear memories.
    pub bytes: u64,
    /// The elements of tables.
    pub elements: u64,
}

impl Amounts {
    /// The amount of one kind.
    pub fn of(&self, kind: Kind) -> u64
        ensures { result ≡ amount_of self.now kind }
    {
        match kind {
            Kind::Bytes => self.bytes,
            Kind::Elements => self.elements,
        }
    }
}

/// What a limiter with caps holds of each kind, and the last difference taken and not given back.
#[derive(Clone, Copy, Debug)]
pub struct Holdings {
    held: Amounts,
    last: Option<(Kind, u64)>,
}

impl Holdings {
    /// Holdings of these amounts, of which nothing can be given back.
    pub fn new(held: Amounts) -> Self
        ensures { result ≡ record { held = held; last = None } }
    {
        Holdings { held, last: None }
    }

    /// The holdings of which `held` and `last` gave these: what is held, and can be given back.
    pub fn resume(held: Amounts, last: Option<(Kind, u64)>) -> Self
        ensures { result ≡ record { held = held; last = last } }
    {
        Holdings { held, last }
    }

    /// The last difference that was taken and not given back, with its kind.
    pub fn last(&self) -> Option<(Kind, u64)>
        ensures { result ≡ self.now.last }
    {
        self.last
    }

    /// What is held.
    pub fn held(&self) -> Amounts
        ensures { result ≡ self.now.held }
    {
        self.held
    }

    /// Takes `difference` more of a kind, if it stays within the cap together with what is held and
    /// what others hold. Returns whether it was taken.
    pub fn take(&mut self, kind: Kind, difference: u64, others: u64, cap: u64) -> bool
        ensures { Takes others cap self.old kind difference result self.new }
    {
        let together = others as u128 + self.held.of(kind) as u128;
        if together + difference as u128 > cap as u128 {
            return false;
        }
        match kind {
            Kind::Bytes => self.held.bytes += difference,
            Kind::Elements => self.held.elements += difference,
        }
        self.last = Some((kind, difference));
        true
    }

    /// Gives back what was taken last, if that is of this kind.
    pub fn give_back(&mut self, kind: Kind)
        ensures { self.new ≡ without_last kind self.old }
    {
        match (kind, self.last) {
            (Kind::Bytes, Some((Kind::Bytes, difference))) => {
                self.held.bytes = self.held.bytes.saturating_sub(difference);
                self.last = None;
            }
            (Kind::Elements, Some((Kind::Elements, difference))) => {
                self.held.elements = self.held.elements.saturating_sub(difference);
                self.last = None;
            }
            _ => {}
        }
    }

    /// Gives up `amount` of a kind, if so much is held. Returns whether it was given up; then
    /// nothing can be given back until more is taken.
    pub fn release(&mut self, kind: Kind, amount: u64) -> bool
        ensures { Releases self.old kind amount result self.new }
    {
        let Some(left) = self.held.of(kind).checked_sub(amount) else {
            return false;
        };
        match kind {
            Kind::Bytes => self.held.bytes = left,
            Kind::Elements => self.held.elements = left,
        }
        self.last = None;
        true
    }
}

/// A limiter that holds what it permitted, in bytes and in elements, until it is notified that what
/// it permitted failed. It isn't notified of what is dropped.
pub trait Reserving: ResourceLimiter {
    /// What it holds of each kind, and the last difference it permitted that wasn't given back.
    ghost holdings: { Self → Holdings };

    /// The bytes that it permitted and that weren't given back.
    fn held_bytes(&self) -> u64
        ensures { result ≡ (holdings self.now).held.bytes };

    /// The elements that it permitted and that weren't given back.
    fn held_elements(&self) -> u64
        ensures { result ≡ (holdings self.now).held.elements };

    /// A permission adds the difference that was asked for; any other answer leaves what is held.
    ghost reserves: { (l l' : Self) (question : Question) (answer : Answer)
        → Self.rules.asked l question answer l'
        → Reserves question answer (holdings l) (holdings l') };

    /// A notice takes back the last permitted difference, once, if it is of the same kind, whatever
    /// the answer to it is. Otherwise what is held stays.
    ghost gives_back: { (l l' : Self) (failure : Failure) (notice_answer : NoticeAnswer)
        → Self.rules.noticed l failure notice_answer l'
        → GivesBack (kind_of failure) (holdings l) (holdings l') };
}

/// A limiter that permits what keeps all that is held of a kind within a cap, and denies the rest.
/// It counts each difference that it permitted. At a notice it takes back the last one if that is
/// of the same kind, once.
pub trait CappedLimiter {
    /// What it holds, what others hold beside it, and its caps.
    ghost capped: { Capped Self };

    /// What it holds of each kind, with the last difference that it permitted.
    fn holdings(&self) -> Holdings
        ensures { result ≡ capped.holdings self.now };

    /// Takes `difference` more of a kind, if all held of it stays within the cap; says whether.
    fn take(&mut self, kind: Kind, difference: u64) -> bool
        ensures { HoldsMore capped self.old kind difference result self.new };

    /// Gives back what was taken last, if that is of this kind.
    fn give_back(&mut self, kind: Kind)
        ensures back { capped.holdings self.new ≡ without_last kind (capped.holdings self.old) }
        ensures rest { self.new ≡ capped.with_holdings self.old (capped.holdings self.new) };
}

impl<L: CappedLimiter> LimiterByKind for L {
    ghost kind_rules = { capped_rules L.capped };

    fn growing(&mut self, kind: Kind, from: usize, to: usize) -> Result<bool, LimiterError> {
        Ok(self.take(kind, (to - from) as u64))
    }

    fn grow_failed(&mut self, kind: Kind) -> Result<(), LimiterError> {
        self.give_back(kind);
        Ok(())
    }
}

impl<L: CappedLimiter> Reserving for L {
    ghost holdings = { L.capped.holdings };

    fn held_bytes(&self) -> u64 {
        self.holdings().held().bytes
    }

    fn held_elements(&self) -> u64 {
        self.holdings().held().elements
    }

    ghost reserves = { asked_reserves L.capped };

    ghost gives_back = { noticed_gives_back L.capped };
}

/// A limiter that permits what stays within two caps, and denies the rest. It counts each
/// difference that it permitted. At a notice it takes back the last one if that is of the same
/// kind, once. It can't be copied, since a copy would count on its own.
#[derive(Debug, Drop)]
pub struct Quota {
    caps: Amounts,
    holdings: Holdings,
}

impl Quota {
    ghost use Rattle.wasmi_meter.specs.Capped.{holdings};

    /// A quota with these caps, in bytes and in elements, which holds nothing yet.
    #[tactic(auto, using(crate::proofs::CappedLemmas::nothing_within))]
    pub fn new(bytes: u64, elements: u64) -> Self
        ensures bytes { cap_of result Bytes ≡ bytes }
        ensures elements { cap_of result Elements ≡ elements }
        ensures nothing_held { holdings result ≡ record { held = nothing; last = None } }
        ensures within { IsWithinCaps result }
    {
        let caps = Amounts { bytes, elements };
        Quota::resume(caps, Holdings::new(Amounts::default()))
    }

    /// The quota whose caps and holdings were read before by `caps` and `holdings`. Two quotas that
    /// were resumed from the same holdings count apart, so only one of them should be used.
    pub fn resume(caps: Amounts, holdings: Holdings) -> Self
        ensures { result ≡ record { caps = caps; holdings = holdings } }
    {
        Quota { caps, holdings }
    }

    /// The most that it may hold of each kind.
    pub fn caps(&self) -> Amounts
        ensures { result ≡ self.now.caps }
    {
        self.caps
    }

    /// What it holds of each kind, with the last difference that it permitted.
    pub fn holdings(&self) -> Holdings
        ensures { result ≡ holdings self.now }
    {
        self.holdings
    }

    /// The bytes that it permitted and that weren't given back.
    pub fn held_bytes(&self) -> u64
        ensures { result ≡ (holdings self.now).held.bytes }
    {
        self.holdings.held().bytes
    }

    /// The elements that it permitted and that weren't given back.
    pub fn held_elements(&self) -> u64
        ensures { result ≡ (holdings self.now).held.elements }
    {
        self.holdings.held().elements
    }

    /// Gives up what a memory (its bytes) or a table (its elements) held until it ended, so that
    /// others can have it. Returns `false`, and changes nothing, where less is held of the kind.
    /// What ended is released once: the quota can't tell one memory from another. A machine counts
    /// what it dropped, so that is released where the machine ends.
    #[tactic(auto, using(crate::proofs::CappedLemmas::released_within))]
    pub fn release(&mut self, kind: Kind, amount: u64) -> bool
        ensures released { Releases (holdings self.old) kind amount result (holdings self.new) }
        ensures caps { self.new.caps ≡ self.old.caps }
        ensures within { IsWithinCaps self.old → IsWithinCaps self.new }
    {
        self.holdings.release(kind, amount)
    }
}

impl CappedLimiter for Quota {
    ghost capped = { capped_quota };

    fn holdings(&self) -> Holdings {
        self.holdings
    }

    fn take(&mut self, kind: Kind, difference: u64) -> bool {
        self.holdings.take(kind, difference, 0, self.caps.of(kind))
    }

    fn give_back(&mut self, kind: Kind) {
        self.holdings.give_back(kind);
    }
}
