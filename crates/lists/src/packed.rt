// Steps and replies of packed lists.
ghost use Rattle.std.specs.Prelude.{◌≡◌, ◌+◌, ◌≤◌, length};
ghost use Rattle.octets.specs.Bytes.{put, part};
ghost use Rattle.rules.specs.Step.{unpack_step, pack_reply, unpack_reply, unpack_told, step_bytes};

use rules::{Reply, Step, Told};

pub fn decode(list: &[u8], at: usize) -> Step
    requires { at + step_bytes ≤ length list.now }
    ensures { result ≡ unpack_step (part at step_bytes list.now) }
{
    let a = list[at];
    let b = list[at + 1];
    let message = octets::load16(list, at + 2);
    let value = octets::load32(list, at + 4);
    Step {
        kind: a / 16,
        transactor: a % 16,
        other: b / 16,
        zero: b % 16,
        message,
        value,
    }
}

pub fn encode(replies: &mut [u8], at: usize, r: Reply)
    requires { at + step_bytes ≤ length replies.old }
    ensures { replies.new ≡ put at (pack_reply r) replies.old }
{
    replies[at] = r.outcome;
    replies[at + 1] = r.transactor;
    octets::store16(replies, at + 2, r.message);
    octets::store32(replies, at + 4, r.value);
}

pub fn decode_reply(replies: &[u8], at: usize) -> Reply
    requires { at + step_bytes ≤ length replies.now }
    ensures { result ≡ unpack_reply (part at step_bytes replies.now) }
{
    let outcome = replies[at];
    let transactor = replies[at + 1];
    let message = octets::load16(replies, at + 2);
    let value = octets::load32(replies, at + 4);
    Reply {
        outcome,
        transactor,
        message,
        value,
    }
}

// Of a reply, what a walk looks at: a Reply, of eight bytes, would make the walk slower.
pub fn told(replies: &[u8], at: usize) -> Told
    requires { at + step_bytes ≤ length replies.now }
    ensures { result ≡ unpack_told (part at step_bytes replies.now) }
{
    let outcome = replies[at];
    let transactor = replies[at + 1];
    let message = octets::load16(replies, at + 2);
    Told {
        outcome,
        transactor,
        message,
    }
}
