// The engine's call for programs in other languages, as include/engine.h declares it: a slice is a pointer and a length. It has no
// precondition, and promises what the call of crate engine promises.
#![tactic(auto)]

ghost use Rattle.std.specs.Prelude.{◌≡◌};
ghost use Rattle.rules.specs.Layout.{base, limits_of};
ghost use Rattle.engine.specs.Play.{play_answer, play_replies};

// Plays the whole list from a fresh session that opens so many transactors, keeps so many messages waiting and checkpoints a transactor
// so often, and writes a reply for each step: 0, or 17, 18, 33 with no byte changed.
#[unsafe(no_mangle)]
pub extern "C" fn engine_play(
    list: &[u8],
    replies: &mut [u8],
    transactors: usize,
    messages: usize,
    checkpoints: usize,
) -> u8
    ensures { (result ≡ play_answer base (limits_of transactors messages checkpoints) list.now replies.old)
        × (replies.new ≡ play_replies base (limits_of transactors messages checkpoints) list.now replies.old) }
{
    match engine::play(list, replies, transactors, messages, checkpoints) {
        Ok(()) => 0,
        Err(r) => r.number(),
    }
}
