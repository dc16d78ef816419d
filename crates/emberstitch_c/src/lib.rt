// The library for the layout engine, in C: the one call that include/emberstitch.h declares. What it does and promises is `emberstitch`'s.
#![tactic(auto)]

ghost use Rattle.std.specs.Prelude.{length};
ghost use Rattle.emberstitch.specs.Promises.{Call};

// Answers a job into a buffer. The number is the answer's length, or 2^32 times the refusal plus its place, and then every byte of the buffer is zero.
#[unsafe(no_mangle)]
pub extern "C" fn emberstitch_answer(job: &[u8], answer: &mut [u8]) -> u64
    ensures { Call job.now (length answer.old) result answer.new }
{
    emberstitch::emberstitch_answer(job, answer)
}
