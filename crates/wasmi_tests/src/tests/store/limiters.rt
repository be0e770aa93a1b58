//! Meters and their errors, quotas, references to limiters, a limiter that records what it is asked
//! and told, and what a lender knows of its limiter afterwards.
ghost use Rattle.wasmi_meter.specs.Limiter.{optional_rules, lent_limiter, KeepsLoan};
ghost use Rattle.wasmi_meter.specs.declared.limiter.Kind.TheVariants.{Bytes};
ghost use Rattle.std.specs.Prelude.{◌≡◌, None, Some, IfOk, if◌then◌else◌};
ghost use Rattle.wasmi_meter.specs.Meter.{costs_of, default_costs};

use super::same;
use std::alloc::AllocError;
use std::process::Abort;
use wasmi_meter::{
    Fuel, FuelCostsProvider, FuelError, Kind, LimiterError, MemoryError, NoLimits, Quota,
    ResourceLimiter, ResourceLimiterRef, TableError,
};
use wasmi_raw::RawRef;

/// Lends its limiter for one question, and knows what became of it.
fn ask_once<L: ResourceLimiter>(limiter: &mut L) -> Result<bool, LimiterError>
    ensures { L.rules.asked limiter.old
        (record { kind = Bytes; current = 0; desired = 5; maximum = None }) result limiter.new }
{
    let mut lent = ResourceLimiterRef::from(limiter);
    let answer = lent.memory_growing(0, 5, None);
    let Some(_limiter) = lent.into_resource_limiter() else {
        unreachable!()
    };
    answer
}

/// Asks the limiter itself, where the reference leads to one.
fn ask_through<L: ResourceLimiter>(lent: &mut ResourceLimiterRef<L>) -> Result<bool, LimiterError>
    ensures loan { KeepsLoan lent.old lent.new }
    ensures asked { (optional_rules L.rules).asked (lent_limiter lent.old)
        (record { kind = Bytes; current = 0; desired = 5; maximum = None }) result
        (lent_limiter lent.new) }
{
    match lent.as_resource_limiter() {
        Some(limiter) => limiter.memory_growing(0, 5, None),
        None => Ok(true),
    }
}

#[test]
fn a_lender_knows_its_limiter(rt: HostRuntime) {
    let mut recorder = Recorder::new(Ok(true), Ok(()));
    same(&rt, "5 bytes", ask_once(&mut recorder), Ok(true));
    same_record(&rt, "5 bytes", &recorder, memory_question(0, 5, None), None);
    let mut nobody = ResourceLimiterRef::<NoLimits>::default();
    same(&rt, "nobody", ask_through(&mut nobody), Ok(true));
}

#[test]
fn a_quota_gives_back_once(rt: HostRuntime) {
    let error = MemoryError::OutOfSystemMemory;
    let mut quota = Quota::new(10, 3);
    let growths = [
        quota.memory_growing(0, 5, None),
        quota.memory_growing(5, 11, Some(20)),
    ];
    same(&rt, "5 of 10 bytes, 6 of 5", growths, [Ok(true), Ok(false)]);
    let at_first = quota.held_bytes();
    let notices = [
        quota.memory_grow_failed(&error),
        quota.memory_grow_failed(&error),
    ];
    same(&rt, "notices", notices, [Ok(()); 2]);
    let bytes = [at_first, quota.held_bytes()];
    same(&rt, "held, and given back once", bytes, [5, 0]);
}

/// The same costs once more.
fn same_costs(provider: &FuelCostsProvider) -> Result<FuelCostsProvider, AllocError>
    ensures { IfOk result (λ same. costs_of same ≡ costs_of provider.now) }
{
    provider.clone()
}

/// A meter at the costs that stand where none are chosen.
fn default_meter(enabled: bool) -> Fuel
    ensures { result ≡ record { left = (if enabled then Some 0 else None); costs = default_costs } }
{
    Fuel::new(enabled, FuelCostsProvider::default())
}

#[test]
fn a_reference_has_four_bytes(rt: HostRuntime) {
    let provider = same_costs(&FuelCostsProvider::default()).expect(&rt, "a clone");
    let of_15 = provider.fuel_for_copying_values::<RawRef>(15);
    let of_16 = provider.fuel_for_copying_values::<RawRef>(16);
    same(&rt, "the default costs", [of_15, of_16], [0, 1]);
}

#[test]
fn a_meter_that_is_off_calls_no_closure(rt: HostRuntime) {
    let mut fuel = default_meter(false);
    let mut is_called = false;
    let off = FuelError::FuelMeteringDisabled;
    same(&rt, "setting 5", fuel.set_fuel(5), Err(off));
    let answers = [
        fuel.consume_fuel_unchecked(0),
        fuel.consume_fuel_unchecked(1),
    ];
    let expected = [Ok(0), Err(FuelError::out_of_fuel(1))];
    same(&rt, "0 and 1 unchecked", answers, expected);
    let consumed = fuel.consume_fuel_if(|_| {
        is_called = true;
        1
    });
    same(&rt, "1 if on", (consumed, is_called), (Ok(()), false));
}

#[test]
fn a_fuel_error_becomes_one_of_a_table(rt: HostRuntime) {
    let answers = [
        TableError::try_from(FuelError::out_of_fuel(7)),
        TableError::try_from(FuelError::fuel_metering_disabled()),
    ];
    let expected = [
        Ok(TableError::OutOfFuel { required_fuel: 7 }),
        Err(FuelError::FuelMeteringDisabled),
    ];
    same(&rt, "too little fuel, metering is off", answers, expected);
}

/// What a limiter answers in place of a permission, or to a notice.
pub const COMPLAINT: LimiterError = LimiterError::ResourceLimiterDeniedAllocation;

/// A question to a limiter.
#[derive(Clone, Copy, Debug, PartialEq, Eq)]
pub struct Question {
    pub kind: Kind,
    pub current: usize,
    pub desired: usize,
    pub maximum: Option<usize>,
}

/// Why a memory or a table wasn't made or didn't grow.
#[derive(Clone, Copy, Debug, PartialEq, Eq)]
pub enum Failure {
    Memory(MemoryError),
    Table(TableError),
}

/// Gives each question the answer and each notice the notice_answer that it was told to give, and
/// keeps what it was asked and told last, and how often.
#[derive(Drop)]
pub struct Recorder {
    pub answer: Result<bool, LimiterError>,
    pub notice_answer: Result<(), LimiterError>,
    pub questions: u32,
    pub question: Option<Question>,
    pub notices: u32,
    pub notice: Option<Failure>,
}

impl Recorder {
    pub(super) fn new(
        answer: Result<bool, LimiterError>,
        notice_answer: Result<(), LimiterError>,
    ) -> Self {
        Recorder {
            answer,
            notice_answer,
            questions: 0,
            question: None,
            notices: 0,
            notice: None,
        }
    }

    fn is_asked(&mut self, question: Option<Question>) -> Result<bool, LimiterError> {
        self.questions = self.questions.saturating_add(1);
        self.question = question;
        self.answer
    }

    fn is_told(&mut self, notice: Failure) -> Result<(), LimiterError> {
        self.notices = self.notices.saturating_add(1);
        self.notice = Some(notice);
        self.notice_answer
    }
}

impl ResourceLimiter for Recorder {
    ghost rules = { record {
      asked = λ _ _ _ _. Unit {0};
      noticed = λ _ _ _ _. Unit {0};
    } };

    fn memory_growing(
        &mut self,
        current: usize,
        desired: usize,
        maximum: Option<usize>,
    ) -> Result<bool, LimiterError> {
        self.is_asked(memory_question(current, desired, maximum))
    }

    fn table_growing(
        &mut self,
        current: usize,
        desired: usize,
        maximum: Option<usize>,
    ) -> Result<bool, LimiterError> {
        self.is_asked(table_question(current, desired, maximum))
    }

    fn memory_grow_failed(&mut self, error: &MemoryError) -> Result<(), LimiterError> {
        self.is_told(Failure::Memory(*error))
    }

    fn table_grow_failed(&mut self, error: &TableError) -> Result<(), LimiterError> {
        self.is_told(Failure::Table(*error))
    }

    fn instances(&self) -> usize {
        0
    }

    fn tables(&self) -> usize {
        0
    }

    fn memories(&self) -> usize {
        0
    }
}

/// A question whether a memory may grow, in bytes.
pub(super) fn memory_question(
    current: usize,
    desired: usize,
    maximum: Option<usize>,
) -> Option<Question> {
    Some(Question {
        kind: Kind::Bytes,
        current,
        desired,
        maximum,
    })
}

/// A question whether a table may grow, in elements.
pub(super) fn table_question(
    current: usize,
    desired: usize,
    maximum: Option<usize>,
) -> Option<Question> {
    Some(Question {
        kind: Kind::Elements,
        current,
        desired,
        maximum,
    })
}

/// Compares what a limiter was asked and told: each of them once, or not at all.
pub(super) fn same_record(
    rt: &impl Abort,
    what: &str,
    recorder: &Recorder,
    question: Option<Question>,
    notice: Option<Failure>,
) {
    let numbers = (u32::from(question.is_some()), u32::from(notice.is_some()));
    same(rt, what, (recorder.questions, recorder.notices), numbers);
    let last = (recorder.question, recorder.notice);
    same(rt, what, last, (question, notice));
}
