//! What no bytes spell: the grammar's own limits on operands. What is encodable is in the tables of the
//! decoder and the encoder.

use kc_insn::{Base, Insn, Mem, Place, Reg, Source};
use kc_words::Width;

const NO_REGISTER: Reg = Reg(16);

const STACK: Mem = Mem {
    gs: false,
    base: Base::Reg(Reg::RSP),
    index: None,
    disp: 8,
};

const GS_WORD: Mem = Mem {
    gs: true,
    base: Base::Absent,
    index: None,
    disp: 8,
};

const RIP_INDEXED: Mem = Mem {
    gs: false,
    base: Base::Rip,
    index: Some((Reg::RAX, 1)),
    disp: 0,
};

const RSP_INDEX: Mem = Mem {
    gs: false,
    base: Base::Absent,
    index: Some((Reg::RSP, 2)),
    disp: 0,
};

const SCALE_3: Mem = Mem {
    gs: false,
    base: Base::Absent,
    index: Some((Reg::RAX, 3)),
    disp: 0,
};

const NOT_ENCODABLE: &[Insn] = &[
    Insn::ReadCr3(NO_REGISTER),
    Insn::Mov(Width::Quad, Place::Mem(STACK), Source::Imm(0x8000_0000)),
    Insn::Mov(Width::Long, Place::Reg(Reg::RAX), Source::Imm(-1)),
    Insn::Mov(Width::Byte, Place::Reg(Reg::RAX), Source::Reg(Reg::RAX)),
    Insn::Mov(Width::Quad, Place::Mem(STACK), Source::Mem(STACK)),
    Insn::Lea(Width::Quad, Reg::RSP, GS_WORD),
    Insn::Push(Source::Imm(0x8000_0000)),
    Insn::Pop(Place::Mem(RIP_INDEXED)),
    Insn::Pop(Place::Mem(RSP_INDEX)),
    Insn::Pop(Place::Mem(SCALE_3)),
    Insn::Test(Width::Byte, Place::Reg(Reg::RAX), Source::Imm(256)),
    Insn::Test(Width::Quad, Place::Reg(Reg::RAX), Source::Mem(STACK)),
    Insn::Jcc(16, 0),
];

#[test]
fn operands_beyond_the_limits_are_not_encodable(rt: HostRuntime) {
    for insn in NOT_ENCODABLE {
        assert!(rt; !insn.encodable(), "{insn:?}");
    }
}
