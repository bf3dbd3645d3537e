//! PUSH, POP, PUSHFQ and POPFQ (Intel SDM vol. 2).

ghost use Rattle.std.specs.Prelude.{◌≡◌};
ghost use Rattle.kc_exec.specs.Effect.{row};
ghost use Rattle.kc_insn.specs.declared.insn.Insn.TheVariants.{Push, Pop, Pushfq, Popfq};

use crate::before::Before;
use crate::executed::{Executed, go_on, put_result};
use crate::flags::{LOADABLE, load_flags};
use crate::log::Log;
use kc_insn::{Place, Source};
use kc_words::Width;

#[tactic(auto, unfolding(crate::specs::Effect::row))]
pub(crate) fn push(m: &Before, src: Source) -> Executed
    ensures { result ≡ row m.now (Push src) }
{
    let v = m.source(Width::Quad, src);
    go_on(m, m.push_rsp(), m.source_reads(Width::Quad, src), m.push(v))
}

// The write to memory takes its address with RSP as the pop leaves it.
#[tactic(auto, unfolding(crate::specs::Effect::row))]
pub(crate) fn pop(m: &Before, dest: Place) -> Executed
    ensures { result ≡ row m.now (Pop dest) }
{
    let v = m.word(0);
    let popped = m.pop_rsp();
    let after = Before {
        cfg: m.cfg,
        cpu: &popped,
        latch: m.latch,
        mem: m.mem,
        next: m.next,
    };
    let write = after.write_to(Width::Quad, dest, v);
    go_on(
        m,
        put_result(&popped, dest, v),
        Log::of(m.word_read(0)),
        write,
    )
}

#[tactic(auto, unfolding(crate::specs::Effect::row))]
pub(crate) fn pushfq(m: &Before) -> Executed
    ensures { result ≡ row m.now Pushfq }
{
    go_on(m, m.push_rsp(), Log::new(), m.push(m.cpu.flags))
}

#[tactic(auto, unfolding(crate::specs::Effect::row))]
pub(crate) fn popfq(m: &Before) -> Executed
    ensures { result ≡ row m.now Popfq }
{
    let mut cpu = m.pop_rsp();
    cpu.flags = load_flags(LOADABLE, m.word(0));
    go_on(m, cpu, Log::of(m.word_read(0)), None)
}
