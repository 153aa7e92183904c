// Document 01's table of refusals. specs/Refusal.antt says what each means.
ghost use Rattle.std.specs.Prelude.{◌≡◌};
ghost use Rattle.model.specs.Refusal.{read_number, fault_number, eval_number, number};
ghost use Rattle.model.specs.declared.refusal.EvalFault.TheVariants.{Operation};
ghost use Rattle.model.specs.declared.refusal.Refusal.TheVariants.{Reading, Evaluating};

// Why a text does not read.
#[derive(Clone, Copy)]
pub enum ReadFault {
    NotJson,
    RepeatedName,
    LoneSurrogate,
    BadNumber,
    TooLarge,
}

// Why an operation has no value.
#[derive(Clone, Copy)]
pub enum Fault {
    WrongKind,
    BadDate,
    OutOfRange,
}

// Why a rule has no value.
#[derive(Clone, Copy)]
pub enum EvalFault {
    Operation(Fault),
    OutOfSteps,
}

// Why a call is refused.
#[derive(Clone, Copy)]
pub enum Refusal {
    InvalidArgument,
    Reading(ReadFault),
    NotRule,
    Evaluating(EvalFault),
    AnswerTooLarge,
    OutputTooShort,
    NotAccepted,
    NotSheet,
}

impl From<Fault> for EvalFault {
    ghost from_gives = { λ f e. e ≡ Operation f };

    fn from(f: Fault) -> EvalFault {
        EvalFault::Operation(f)
    }
}

impl From<ReadFault> for Refusal {
    ghost from_gives = { λ f r. r ≡ Reading f };

    fn from(f: ReadFault) -> Refusal {
        Refusal::Reading(f)
    }
}

impl From<EvalFault> for Refusal {
    ghost from_gives = { λ f r. r ≡ Evaluating f };

    fn from(f: EvalFault) -> Refusal {
        Refusal::Evaluating(f)
    }
}

impl From<ReadFault> for u32 {
    ghost from_gives = { λ f n. n ≡ read_number f };

    fn from(f: ReadFault) -> u32 {
        match f {
            ReadFault::NotJson => 2,
            ReadFault::RepeatedName => 3,
            ReadFault::LoneSurrogate => 3,
            ReadFault::BadNumber => 4,
            ReadFault::TooLarge => 5,
        }
    }
}

impl From<Fault> for u32 {
    ghost from_gives = { λ f n. n ≡ fault_number f };

    fn from(f: Fault) -> u32 {
        match f {
            Fault::WrongKind => 7,
            Fault::BadDate => 8,
            Fault::OutOfRange => 9,
        }
    }
}

impl From<EvalFault> for u32 {
    ghost from_gives = { λ f n. n ≡ eval_number f };

    fn from(f: EvalFault) -> u32 {
        match f {
            EvalFault::Operation(g) => u32::from(g),
            EvalFault::OutOfSteps => 10,
        }
    }
}

// The number that a host is told.
impl From<Refusal> for u32 {
    ghost from_gives = { λ r n. n ≡ number r };

    fn from(r: Refusal) -> u32 {
        match r {
            Refusal::InvalidArgument => 1,
            Refusal::Reading(f) => u32::from(f),
            Refusal::NotRule => 6,
            Refusal::Evaluating(f) => u32::from(f),
            Refusal::AnswerTooLarge => 11,
            Refusal::OutputTooShort => 12,
            Refusal::NotAccepted => 13,
            Refusal::NotSheet => 14,
        }
    }
}
