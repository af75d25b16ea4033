//! The first words of lines.

ghost use Rattle.std.specs.Prelude.{◌≡◌};
ghost use Rattle.cg_sim.specs.ScriptLines as spec;

use cg_text::is_word;

/// The first word of a line.
#[derive(Clone, Copy, Debug, PartialEq, Eq)]
pub(crate) enum Word {
    Seeds,
    Start,
    Beat,
    Set,
    Remove,
    Open,
    Tick,
    Deliver,
    Gossipinfo,
    Ring,
    Digests,
    Replicas,
}

/// Returns the word that these letters spell.
#[tactic(auto, unfolding(crate::specs::ScriptLines::word_named))]
pub(crate) fn word_named(name: &[u8]) -> Option<Word>
    ensures { result ≡ spec.word_named name.now }
{
    if is_word(name, "deliver") {
        return Some(Word::Deliver);
    }
    if is_word(name, "digests") {
        return Some(Word::Digests);
    }
    if is_word(name, "open") {
        return Some(Word::Open);
    }
    if is_word(name, "beat") {
        return Some(Word::Beat);
    }
    if is_word(name, "seeds") {
        return Some(Word::Seeds);
    }
    if is_word(name, "start") {
        return Some(Word::Start);
    }
    if is_word(name, "set") {
        return Some(Word::Set);
    }
    if is_word(name, "remove") {
        return Some(Word::Remove);
    }
    if is_word(name, "tick") {
        return Some(Word::Tick);
    }
    if is_word(name, "gossipinfo") {
        return Some(Word::Gossipinfo);
    }
    if is_word(name, "ring") {
        return Some(Word::Ring);
    }
    if is_word(name, "replicas") {
        return Some(Word::Replicas);
    }
    None
}
