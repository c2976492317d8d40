// What a part of the receiver answers, as the answer of a step.

#![tactic(auto)]

ghost use Rattle.std.specs.Prelude.{◌≡◌};
ghost use Rattle.waiting.specs.Answers.{store_number_of, store_values_of, release_number_of};
ghost use Rattle.model.specs.Answer.{step_number};
ghost use Rattle.model.specs.Step.{stopped, listed};
ghost use Rattle.pairs.specs.Table.{number_of, values_of};
ghost use Rattle.answers.specs.View.{store_said, release_said, Tells, called, TellsPage};

use discovery::{PageAnswer, PageCall};
use model::StepAnswer;
use pairs::Checked;
use settings::Settings;
use waiting::{ReleaseAnswer, StoreAnswer, StoreCall};

// What storing answers, as the step's answer.
pub fn stored_answer(a: StoreCall) -> StepAnswer
    ensures answer { result ≡ store_said a }
    ensures told { Tells result (store_number_of a) (store_values_of a) }
{
    match a {
        StoreCall::Taken(StoreAnswer::Stored) => StepAnswer::Nothing,
        StoreCall::Taken(StoreAnswer::MergeRefused) => StepAnswer::DmxMergeError,
        StoreCall::Taken(StoreAnswer::WaitingFull) => StepAnswer::WaitingFull,
        StoreCall::TooLong(n) => StepAnswer::TooLong(n),
    }
}

// What stops an arrival, as the step's answer.
pub fn stop_answer(a: Checked) -> StepAnswer
    ensures answer { result ≡ stopped a }
    ensures told { Tells result (number_of a) (values_of a) }
{
    match a {
        Checked::Accepted => StepAnswer::Nothing,
        Checked::UniverseTimeout(c, u) => StepAnswer::UniverseTimeout(c, u),
        Checked::SourcesExceeded(n) => StepAnswer::SourcesExceeded(n),
        Checked::OutOfSequence(a, l, d) => StepAnswer::OutOfSequence(a, l, d),
        Checked::PairsFull => StepAnswer::PairsFull,
        Checked::Repeated(a, l, d) => StepAnswer::Repeated(a, l, d),
    }
}

// A release's answer, as the step's: nothing where none is left.
pub fn release_answer(a: ReleaseAnswer) -> StepAnswer
    ensures answer { result ≡ release_said a }
    ensures told { step_number result ≡ release_number_of a }
{
    match a {
        ReleaseAnswer::Released(0, _) => StepAnswer::Nothing,
        ReleaseAnswer::Released(records, bytes) => StepAnswer::Released(records, bytes),
        ReleaseAnswer::OutputShort(n) => StepAnswer::TooShort(n),
    }
}

// What a page's arrival answers, as the step's answer.
pub fn listed_answer(a: PageAnswer, settings: Settings) -> StepAnswer
    ensures { result ≡ listed settings a }
{
    match a {
        PageAnswer::Taken => StepAnswer::Nothing,
        PageAnswer::Listed if settings.announce_source_discovery => StepAnswer::SourceDiscovered,
        PageAnswer::Listed => StepAnswer::Nothing,
        PageAnswer::PagesFull => StepAnswer::PagesFull,
    }
}

// What the call for a page answers, as the step's answer.
pub fn called_answer(a: PageCall, settings: Settings) -> StepAnswer
    ensures answer { result ≡ called settings a }
    ensures told { TellsPage a result }
{
    match a {
        PageCall::Done(p) => listed_answer(p, settings),
        PageCall::TooLong(n) => StepAnswer::TooLong(n),
    }
}
