//! An object with one call of it, done on a twin and then on the object, and their texts compared.

ghost use Rattle.std.specs.Prelude.{◌≡◌, ℕ};

use crate::answers::Answer;
use cg_types::Fault;
use std::alloc::{AllocError, Global};
use std::fmt::Write;

/// An object, and one call of it.
pub(crate) trait Trial {
    // the parts of a ledger that its seat has, which no call changes; 0 where there is no seat
    ghost parts: { Self → ℕ };

    /// Does what has to be done before the call, if anything has.
    fn begin(&mut self, _alloc: Global) -> Result<(), Fault>
        ensures { parts self.new ≡ parts self.old }
    {
        Ok(())
    }

    /// Makes the call.
    fn call(&mut self, alloc: Global) -> Result<Answer, Fault>
        ensures { parts self.new ≡ parts self.old };

    /// Adds all that can be seen of the object.
    fn show(&mut self, alloc: Global, text: &mut String) -> Result<(), Fault>
        ensures { parts self.new ≡ parts self.old };

    /// Makes the next call, behind one that was answered, if there is one: it may show what the object alone does not.
    fn go_on(&mut self, _alloc: Global) -> Result<Answer, Fault>
        ensures { parts self.new ≡ parts self.old }
    {
        Ok(Answer::Done)
    }
}

/// The texts of an object: before the call, behind it if its memory was refused, and behind the call that was answered;
/// the answer in short; and whether a board's end confirmed all receipts.
#[derive(Drop)]
pub(crate) struct Seen {
    before: String,
    refused: Option<String>,
    answer: String,
    after: String,
    is_confirmed: bool,
}

/// The outcome of a case.
#[derive(Drop)]
pub(crate) enum Outcome {
    /// The call answered, and all is as on the twin.
    Answered(String),
    /// The call was refused, and the object was as before; made again, it is as on the twin.
    Refused,
    /// The call was refused a part, and kept the part that it may.
    Kept,
    /// None of these.
    Third { due: String, seen: String },
}

// Returns all that can be seen of an object.
fn shown<T: Trial>(alloc: Global, trial: &mut T) -> Result<String, Fault>
    ensures { T.parts trial.new ≡ T.parts trial.old }
{
    let mut text = String::new(alloc);
    match trial.show(alloc, &mut text) {
        Ok(()) => Ok(text),
        Err(fault) => Err(fault),
    }
}

// Returns all that can be seen of an object behind its call. One request is refused at most, so there is memory at the
// second try: if not, the call left it so.
fn shown_behind<T: Trial>(alloc: Global, trial: &mut T) -> Result<String, Fault>
    ensures { T.parts trial.new ≡ T.parts trial.old }
{
    match shown(alloc, trial) {
        Ok(text) => return Ok(text),
        Err(_) => {}
    }
    match shown(alloc, trial) {
        Ok(text) => Ok(text),
        Err(_) => Err(Fault::BadText),
    }
}

// Makes the next call, and once more if its memory is refused.
fn next<T: Trial>(alloc: Global, trial: &mut T) -> Result<Answer, Fault>
    ensures { T.parts trial.new ≡ T.parts trial.old }
{
    match trial.go_on(alloc) {
        Ok(answer) => return Ok(answer),
        Err(_) => {}
    }
    trial.go_on(alloc)
}

// What a call answered: whether its memory was refused, the answer in short, and all of it.
#[derive(Drop)]
struct Answered {
    is_refused: bool,
    short: String,
    whole: String,
}

// Makes the call, and returns its answer as texts.
fn make_call<T: Trial>(alloc: Global, trial: &mut T) -> Result<Answered, Fault>
    ensures { T.parts trial.new ≡ T.parts trial.old }
{
    let answer = trial.call(alloc);
    let is_refused = matches!(answer, Err(Fault::OutOfMemory));
    match texts(alloc, &answer) {
        Ok((short, whole)) => Ok(Answered {
            is_refused,
            short,
            whole,
        }),
        Err(_) => Err(Fault::OutOfMemory),
    }
}

fn add_shown<T: Trial>(alloc: Global, trial: &mut T, text: &mut String) -> Result<(), Fault>
    ensures { T.parts trial.new ≡ T.parts trial.old }
{
    match shown_behind(alloc, trial) {
        Ok(shown) => Ok(text.push_str(shown.as_str())?),
        Err(fault) => Err(fault),
    }
}

fn add_next<T: Trial>(alloc: Global, trial: &mut T, text: &mut String) -> Result<(), Fault>
    ensures { T.parts trial.new ≡ T.parts trial.old }
{
    let answer = next(alloc, trial);
    match writeln!(text, "{answer:?}") {
        Ok(()) => Ok(()),
        Err(_) => Err(Fault::OutOfMemory),
    }
}

// Adds all that can be seen of the object behind a call that was answered, and behind the next one.
fn told<T: Trial>(alloc: Global, trial: &mut T, text: &mut String) -> Result<(), Fault>
    ensures { T.parts trial.new ≡ T.parts trial.old }
{
    match add_shown(alloc, trial, text) {
        Ok(()) => {}
        Err(fault) => return Err(fault),
    }
    match add_next(alloc, trial, text) {
        Ok(()) => {}
        Err(fault) => return Err(fault),
    }
    add_shown(alloc, trial, text)
}

// Returns what was answered in short and whole.
fn texts(alloc: Global, called: &Result<Answer, Fault>) -> Result<(String, String), AllocError> {
    let short = match called {
        Ok(answer) => answer.short(alloc)?,
        Err(fault) => format!(in alloc; "{fault}")?,
    };
    Ok((short, format!(in alloc; "{called:?}\n")?))
}

// Returns what is seen of an object behind its last call.
fn seen_behind<T: Trial>(
    alloc: Global,
    trial: &mut T,
    before: String,
    refused: Option<String>,
    answered: Answered,
) -> Result<Seen, Fault>
    ensures { T.parts trial.new ≡ T.parts trial.old }
{
    let Answered {
        is_refused: _,
        short,
        whole,
    } = answered;
    let mut after = whole;
    match told(alloc, trial, &mut after) {
        Ok(()) => Ok(Seen {
            before,
            refused,
            answer: short,
            after,
            is_confirmed: true,
        }),
        Err(fault) => Err(fault),
    }
}

// Makes the call once more, behind one that was refused. There is memory now, so a refusal is a text as any answer.
fn again<T: Trial>(alloc: Global, trial: &mut T, before: String) -> Result<Seen, Fault>
    ensures { T.parts trial.new ≡ T.parts trial.old }
{
    let refused = match shown_behind(alloc, trial) {
        Ok(text) => text,
        Err(fault) => return Err(fault),
    };
    match make_call(alloc, trial) {
        Ok(answered) => seen_behind(alloc, trial, before, Some(refused), answered),
        Err(fault) => Err(fault),
    }
}

/// Makes the call of an object, and once more if its memory is refused, and returns what is seen of it.
pub(crate) fn tried<T: Trial>(alloc: Global, trial: &mut T) -> Result<Seen, Fault>
    ensures { T.parts trial.new ≡ T.parts trial.old }
{
    match trial.begin(alloc) {
        Ok(()) => {}
        Err(fault) => return Err(fault),
    }
    let before = match shown(alloc, trial) {
        Ok(text) => text,
        Err(fault) => return Err(fault),
    };
    match make_call(alloc, trial) {
        Ok(answered) if answered.is_refused => again(alloc, trial, before),
        Ok(answered) => seen_behind(alloc, trial, before, None, answered),
        Err(fault) => Err(fault),
    }
}

impl Seen {
    /// Returns what is seen of an object by a text alone.
    pub(crate) fn of_text(alloc: Global, text: String) -> Seen {
        Seen {
            before: String::new(alloc),
            refused: None,
            answer: text,
            after: String::new(alloc),
            is_confirmed: true,
        }
    }

    /// Adds whether a board's end confirmed all receipts.
    pub(crate) fn ended(self, is_confirmed: bool) -> Seen {
        Seen {
            is_confirmed,
            ..self
        }
    }

    /// Tells whether a board's end, if there was one, confirmed all receipts.
    pub(crate) fn is_confirmed(&self) -> bool {
        self.is_confirmed
    }

    /// Returns the answer in short.
    pub(crate) fn into_answer(self) -> String {
        self.answer
    }

    /// Returns what is seen of a twin. `OutOfMemory` if its own memory was refused: the refusal lay before the call.
    pub(crate) fn of_twin(self) -> Result<Seen, Fault> {
        match &self.refused {
            Some(_) => Err(Fault::OutOfMemory),
            None => Ok(self),
        }
    }

    // Tests whether the answer and the object are those of another.
    fn is_as(&self, other: &Seen) -> bool {
        self.is_confirmed == other.is_confirmed
            && self.answer.as_str() == other.answer.as_str()
            && self.after.as_str() == other.after.as_str()
    }

    // Tests whether a refusal left the object as it was.
    fn is_unchanged(&self) -> bool {
        match &self.refused {
            Some(refused) => refused.as_str() == self.before.as_str(),
            None => true,
        }
    }

    fn text(&self, alloc: Global) -> Result<String, AllocError> {
        let before = self.before.as_str();
        let after = self.after.as_str();
        let mut text = format!(in alloc; "{before}")?;
        if let Some(refused) = &self.refused {
            let refused = refused.as_str();
            write!(text, "-- refused\n{refused}")?;
        }
        let is_confirmed = self.is_confirmed;
        write!(text, "-- answered\n{after}confirmed: {is_confirmed}")?;
        Ok(text)
    }
}

fn third(alloc: Global, due: &Seen, seen: &Seen) -> Result<Outcome, Fault> {
    Ok(Outcome::Third {
        due: due.text(alloc)?,
        seen: seen.text(alloc)?,
    })
}

/// Compares what is seen of an object with what is due, which was seen of its twin.
pub(crate) fn compared(alloc: Global, due: &Seen, seen: Seen) -> Result<Outcome, Fault> {
    let is_due = seen.before.as_str() == due.before.as_str() && seen.is_unchanged();
    if !is_due || !seen.is_as(due) {
        return third(alloc, due, &seen);
    }
    Ok(match seen.refused {
        Some(_) => Outcome::Refused,
        None => Outcome::Answered(seen.answer),
    })
}

/// Compares as `compared` does. What is seen of an object may also be that of a twin that kept a part of the change. If
/// what is due is that, the refusal lay in the twin.
pub(crate) fn compared_or_kept(
    alloc: Global,
    due: &Seen,
    kept: &Seen,
    seen: Seen,
) -> Result<Outcome, Fault> {
    if due.is_as(kept) {
        return Err(Fault::OutOfMemory);
    }
    let is_kept = seen.refused.is_none() && seen.before.as_str() == kept.before.as_str();
    if is_kept && seen.is_as(kept) {
        return Ok(Outcome::Kept);
    }
    compared(alloc, due, seen)
}
