//! Runs under a limiter of one's own that reserves, under one that answers by random numbers, and
//! runs that find no memory; and what a pool of tenants refuses (`script::replies` has scripts of
//! tenants).
ghost use Rattle.std.specs.Prelude.{◌≡◌};
ghost use Rattle.wasmi_meter.specs.Capped.{Reserves, GivesBack};
ghost use Rattle.wasmi_meter.specs.Limiter.{kind_of};

use super::{func, memory_type, meter, metered, runs_to, same, unmetered};
use std::alloc::AllocGlobal;
use std::process::Abort;
use wasmi_budget::{AddError, Pool};
use wasmi_machine::{Call, Machine, Reply, run_lending, run_reserving};
use wasmi_meter::{Amounts, Holdings, Kind, LimiterByKind, LimiterError, MemoryError, Reserving};
use wasmi_store::TableType;
use wasmi_types::RefType;

const COMPLAINT: LimiterError = LimiterError::ResourceLimiterDeniedAllocation;

const DENIED: Reply = Reply::Memory(MemoryError::ResourceLimiterDeniedAllocation);

/// Permits so many growths of any size, denies by an error, and complains of each notice.
#[derive(Drop)]
struct Allowance {
    growths: u32,
    holdings: Holdings,
}

impl LimiterByKind for Allowance {
    ghost kind_rules = { record {
      asked = λ a question answer a'. Reserves question answer a.holdings a'.holdings;
      noticed = λ a failure notice_answer a'. GivesBack (kind_of failure) a.holdings a'.holdings;
    } };

    fn growing(
        &mut self,
        kind: Kind,
        current: usize,
        desired: usize,
    ) -> Result<bool, LimiterError> {
        let Some(growths) = self.growths.checked_sub(1) else {
            return Err(COMPLAINT);
        };
        if !self
            .holdings
            .take(kind, (desired - current) as u64, 0, u64::MAX)
        {
            return Err(COMPLAINT);
        }
        self.growths = growths;
        Ok(true)
    }

    fn grow_failed(&mut self, kind: Kind) -> Result<(), LimiterError> {
        self.holdings.give_back(kind);
        Err(COMPLAINT)
    }
}

impl Reserving for Allowance {
    ghost holdings = { λ a. a.holdings };

    fn held_bytes(&self) -> u64 {
        self.holdings.held().bytes
    }

    fn held_elements(&self) -> u64 {
        self.holdings.held().elements
    }

    ghost reserves = { λ a a' question answer asked. asked };

    ghost gives_back = { λ a a' failure notice_answer noticed. noticed };
}

/// A growth by one page.
const GROWTH: Call = Call::GrowMemory {
    memory: 0,
    pages: 1,
};

#[test]
fn another_limiter_reserves(rt: HostRuntime) {
    let mut allowance = Allowance {
        growths: 4,
        holdings: Holdings::new(Amounts {
            bytes: 0,
            elements: 0,
        }),
    };
    let mut machine = metered(rt.alloc());
    let calls = [
        Call::NewMemory(memory_type(&rt, 1, 16)),
        GROWTH,
        Call::NewTable {
            ty: TableType::new(RefType::Func, 3, None),
            init: func(0),
        },
        Call::DropMemory(0),
        Call::NewMemory(memory_type(&rt, 2, 16)),
        Call::GrowMemory {
            memory: 1,
            pages: 1,
        },
    ];
    let replies = run_reserving(&mut machine, &calls, &mut allowance);
    let expected = [
        Reply::Made(0),
        DENIED,
        Reply::Made(0),
        Reply::Done,
        Reply::Made(1),
        DENIED,
    ];
    let replies = replies.expect(&rt, "there is room");
    same(&rt, "replies", replies.as_slice(), expected.as_slice());
    let held = (allowance.held_bytes(), allowance.held_elements());
    let totals = (machine.total_bytes(), machine.total_elements());
    let answer = (held, totals, allowance.growths);
    let expected = ((196608, 3), (196608, 3), 0);
    same(
        &rt,
        "what is held, the totals, growths left",
        answer,
        expected,
    );
}

/// Answers questions by the bits of one number, two for each, and notices by the bits of another,
/// one for each.
#[derive(Clone, Copy, Debug, PartialEq, Eq)]
struct RandomAnswers {
    answers: u64,
    accepts: u64,
    questions: u32,
    notices: u32,
}

impl RandomAnswers {
    fn new(answers: u64, accepts: u64) -> Self {
        RandomAnswers {
            answers,
            accepts,
            questions: 0,
            notices: 0,
        }
    }

    fn answer(&mut self) -> Result<bool, LimiterError> {
        let bits = self.answers & 3;
        self.answers = self.answers.rotate_right(2);
        self.questions = self.questions.saturating_add(1);
        match bits {
            0 => Ok(false),
            1 => Err(COMPLAINT),
            _ => Ok(true),
        }
    }

    fn notice_answer(&mut self) -> Result<(), LimiterError> {
        let bit = self.accepts & 1;
        self.accepts = self.accepts.rotate_right(1);
        self.notices = self.notices.saturating_add(1);
        if bit == 0 { Ok(()) } else { Err(COMPLAINT) }
    }

    /// The reply to a growth by one page, which a meter that is on can't pay.
    fn reply(&mut self, pages: &mut u64, is_metered: bool) -> Reply {
        match self.answer() {
            Ok(true) if is_metered => match self.notice_answer() {
                Ok(()) => Reply::Memory(MemoryError::OutOfFuel {
                    required_fuel: 1024,
                }),
                Err(_) => DENIED,
            },
            Ok(true) => {
                let size = *pages;
                *pages = size.saturating_add(1);
                Reply::Number(size)
            }
            Ok(false) => Reply::Memory(MemoryError::OutOfBoundsGrowth),
            Err(_) => DENIED,
        }
    }
}

impl LimiterByKind for RandomAnswers {
    ghost kind_rules = { record {
      asked = λ _ _ _ _. Unit {0};
      noticed = λ _ _ _ _. Unit {0};
    } };

    fn growing(&mut self, _: Kind, _: usize, _: usize) -> Result<bool, LimiterError> {
        self.answer()
    }

    fn grow_failed(&mut self, _kind: Kind) -> Result<(), LimiterError> {
        self.notice_answer()
    }
}

/// Random numbers, and how many of 32 growths by one page they permit.
const RANDOM_NUMBERS: [(u64, u64, u64); 4] = [
    (0x243F_6A88_85A3_08D3, 0x1319_8A2E_0370_7344, 16),
    (0xA409_3822_299F_31D0, 0x082E_FA98_EC4E_6C89, 14),
    (0x4528_21E6_38D0_1377, 0xBE54_66CF_34E9_0C6C, 12),
    (0xC0AC_29B7_C97C_50DD, 0x3F84_D5B5_B547_0917, 15),
];

/// Grows a memory 32 times by one page under these answers, and compares the replies and how many
/// pages it then has. A meter that is on has no fuel.
fn grows_by_random_answers(
    rt: &(impl Abort + AllocGlobal),
    is_metered: bool,
    random: RandomAnswers,
) -> u64 {
    let mut machine = Machine::new(rt.alloc(), meter(is_metered));
    let creation = [Call::NewMemory(memory_type(rt, 0, 16))];
    runs_to(rt, &mut machine, &creation, &[Reply::Made(0)]);
    let (mut foretold, mut pages) = (random, 0);
    let mut calls = Vec::new(rt.alloc());
    let mut expected = Vec::new(rt.alloc());
    for _growth in 0..32 {
        calls.push(GROWTH).ok().expect(rt, "there is room");
        let reply = foretold.reply(&mut pages, is_metered);
        expected.push(reply).ok().expect(rt, "there is room");
    }
    let mut limiter = random;
    let replies = run_lending(&mut machine, &calls, &mut limiter).ok();
    same(rt, "the replies", replies, Some(expected));
    let size = machine.memory(0).map(|memory| memory.size());
    let answer = (limiter.questions, limiter, size);
    let expected = (32, foretold, Some(pages));
    same(rt, "questions, limiter, pages", answer, expected);
    pages
}

#[test]
fn random_answers_leave_a_run_as_it_is_told(rt: HostRuntime) {
    for (answers, accepts, permitted) in RANDOM_NUMBERS {
        let random = RandomAnswers::new(answers, accepts);
        let permitted_pages = grows_by_random_answers(&rt, false, random);
        same(&rt, "the growths permitted", permitted_pages, permitted);
        let paid_pages = grows_by_random_answers(&rt, true, random);
        same(&rt, "none is paid for", paid_pages, 0);
    }
}

/// With ample memory the run is answered. Under `rt try --test --fail-alloc N` it may find none for
/// its replies, and has then done nothing.
#[test]
fn a_run_without_room_does_nothing(rt: HostRuntime) {
    let calls = [Call::SetFuel(7), Call::NewMemory(memory_type(&rt, 3, 0))];
    let mut random = RandomAnswers::new(u64::MAX, 0);
    let mut machine = metered(rt.alloc());
    let (questions, fuel, bytes) = match run_lending(&mut machine, &calls, &mut random) {
        Ok(_replies) => (1, 7, 3),
        Err(_) => (0, 0, 0),
    };
    let answer = (
        random.questions,
        machine.fuel().get_fuel(),
        machine.total_bytes(),
    );
    same(
        &rt,
        "questions, fuel, bytes",
        answer,
        (questions, Ok(fuel), bytes),
    );
}

#[test]
fn a_machine_that_dropped_a_memory_comes_back(rt: HostRuntime) {
    let mut used = unmetered(rt.alloc());
    let calls = [
        Call::NewMemory(memory_type(&rt, 1, 16)),
        Call::DropMemory(0),
    ];
    runs_to(&rt, &mut used, &calls, &[Reply::Made(0), Reply::Done]);
    let mut pool = Pool::new(rt.alloc(), 131072, 0);
    let refused = match pool.add(used) {
        Ok(index) => Err(index),
        Err((error, back)) => Ok((error, back.total_bytes())),
    };
    let expected = Ok((AddError::NotEmpty, 65536));
    same(&rt, "the refusal, its bytes", refused, expected);
}
