//! The encoder's chosen spellings, by an independent model. Each is also decoded: what it spells has
//! the text of the line.

use crate::texts::has_text;
use kc_decode::decode;
use kc_encode::{EncodeFault, encode, round_trip};
use kc_insn::Insn;
use kc_tables::case_of;
use std::test::Fail;

/// The bytes that are chosen, their address, and the text of the instruction.
const CHOSEN: &str = "\
90 | 0x400000 | nop
f3 0f 1e fa | 0x400000 | endbr64
0f ae e8 | 0x400000 | lfence
0f 0b | 0x400000 | ud2
fc | 0x400000 | cld
0f 01 ca | 0x400000 | clac
0f 01 cb | 0x400000 | stac
fa | 0x400000 | cli
fb | 0x400000 | sti
0f 01 f8 | 0x400000 | swapgs
48 0f 07 | 0x400000 | sysretq
48 cf | 0x400000 | iretq
0f 32 | 0x400000 | rdmsr
0f 30 | 0x400000 | wrmsr
9c | 0x400000 | pushfq
9d | 0x400000 | popfq
c3 | 0x400000 | ret
0f 20 d8 | 0x400000 | mov rax, cr3
41 0f 20 dd | 0x400000 | mov r13, cr3
0f 22 d8 | 0x400000 | mov cr3, rax
41 0f 22 dd | 0x400000 | mov cr3, r13
f3 48 0f ae c8 | 0x400000 | rdgsbase rax
f3 49 0f ae cd | 0x400000 | rdgsbase r13
f3 48 0f ae d8 | 0x400000 | wrgsbase rax
f3 49 0f ae d8 | 0x400000 | wrgsbase r8
f3 49 0f ae dd | 0x400000 | wrgsbase r13
48 c7 c0 00 00 00 00 | 0x400000 | mov rax, 0x0
6a 00 | 0x400000 | push 0x0
48 83 e4 00 | 0x400000 | and rsp, 0x0
65 49 c7 04 24 00 00 00 00 | 0x400000 | mov qword gs:[r12], 0x0
6a 7f | 0x400000 | push 0x7f
41 83 7d 00 7f | 0x400000 | cmp dword [r13], 0x7f
48 c7 c0 80 00 00 00 | 0x400000 | mov rax, 0x80
68 80 00 00 00 | 0x400000 | push 0x80
48 81 e4 80 00 00 00 | 0x400000 | and rsp, 0x80
41 b9 80 00 00 00 | 0x400000 | mov r9d, 0x80
41 81 7d 00 80 00 00 00 | 0x400000 | cmp dword [r13], 0x80
48 c7 c0 80 ff ff ff | 0x400000 | mov rax, -0x80
6a 80 | 0x400000 | push -0x80
48 83 e4 80 | 0x400000 | and rsp, -0x80
48 c7 c0 7f ff ff ff | 0x400000 | mov rax, -0x81
48 c7 c0 ff ff ff 7f | 0x400000 | mov rax, 0x7fffffff
48 81 e4 ff ff ff 7f | 0x400000 | and rsp, 0x7fffffff
65 49 c7 04 24 ff ff ff 7f | 0x400000 | mov qword gs:[r12], 0x7fffffff
41 b9 ff ff ff 7f | 0x400000 | mov r9d, 0x7fffffff
48 c7 c0 00 00 00 80 | 0x400000 | mov rax, -0x80000000
68 00 00 00 80 | 0x400000 | push -0x80000000
65 49 c7 04 24 00 00 00 80 | 0x400000 | mov qword gs:[r12], -0x80000000
48 b8 00 00 00 80 00 00 00 00 | 0x400000 | mov rax, 0x80000000
41 b9 00 00 00 80 | 0x400000 | mov r9d, 0x80000000
41 81 7d 00 00 00 00 80 | 0x400000 | cmp dword [r13], 0x80000000
48 b8 ff ff ff 7f ff ff ff ff | 0x400000 | mov rax, -0x80000001
48 b8 ff ff ff ff 00 00 00 00 | 0x400000 | mov rax, 0xffffffff
41 b9 ff ff ff ff | 0x400000 | mov r9d, 0xffffffff
41 83 7d 00 ff | 0x400000 | cmp dword [r13], 0xffffffff
48 b8 ff ff ff ff ff ff ff 7f | 0x400000 | mov rax, 0x7fffffffffffffff
48 b8 00 00 00 00 00 00 00 80 | 0x400000 | mov rax, -0x8000000000000000
83 f0 80 | 0x400000 | xor eax, 0xffffff80
81 f0 7f ff ff ff | 0x400000 | xor eax, 0xffffff7f
83 f0 ff | 0x400000 | xor eax, 0xffffffff
4c 8b 14 25 00 00 00 00 | 0x400000 | mov r10, [0x0]
f6 04 25 00 00 00 00 ff | 0x400000 | test byte [0x0], 0xff
65 4c 8b 14 25 ff ff ff ff | 0x400000 | mov r10, gs:[-0x1]
65 f6 04 25 ff ff ff ff ff | 0x400000 | test byte gs:[-0x1], 0xff
4c 8b 15 00 00 00 00 | 0x400000 | mov r10, [rip]
f6 05 00 00 00 00 ff | 0x400000 | test byte [rip], 0xff
65 4c 8b 15 f0 ff ff ff | 0x400000 | mov r10, gs:[rip-0x10]
65 f6 05 f0 ff ff ff ff | 0x400000 | test byte gs:[rip-0x10], 0xff
4c 8b 14 24 | 0x400000 | mov r10, [rsp]
f6 04 24 ff | 0x400000 | test byte [rsp], 0xff
4c 8b 55 00 | 0x400000 | mov r10, [rbp]
f6 45 00 ff | 0x400000 | test byte [rbp], 0xff
4d 8b 54 24 7f | 0x400000 | mov r10, [r12+0x7f]
41 f6 44 24 7f ff | 0x400000 | test byte [r12+0x7f], 0xff
4d 8b 95 80 00 00 00 | 0x400000 | mov r10, [r13+0x80]
41 f6 85 80 00 00 00 ff | 0x400000 | test byte [r13+0x80], 0xff
4c 8b 54 08 80 | 0x400000 | mov r10, [rax+rcx-0x80]
f6 44 08 80 ff | 0x400000 | test byte [rax+rcx-0x80], 0xff
4e 8b 54 cd 00 | 0x400000 | mov r10, [rbp+r9*8]
42 f6 44 cd 00 ff | 0x400000 | test byte [rbp+r9*8], 0xff
4e 8b 14 a5 08 00 00 00 | 0x400000 | mov r10, [r12*4+0x8]
42 f6 04 a5 08 00 00 00 ff | 0x400000 | test byte [r12*4+0x8], 0xff
4c 8b 94 6c 7f ff ff ff | 0x400000 | mov r10, [rsp+rbp*2-0x81]
f6 84 6c 7f ff ff ff ff | 0x400000 | test byte [rsp+rbp*2-0x81], 0xff
65 4f 8b 94 ff ff ff ff 7f | 0x400000 | mov r10, gs:[r15+r15*8+0x7fffffff]
65 43 f6 84 ff ff ff ff 7f ff | 0x400000 | test byte gs:[r15+r15*8+0x7fffffff], 0xff
4d 8b 54 05 00 | 0x400000 | mov r10, [r13+rax]
41 f6 44 05 00 ff | 0x400000 | test byte [r13+rax], 0xff
f6 c0 03 | 0x400000 | test al, 0x3
f6 c3 03 | 0x400000 | test bl, 0x3
40 f6 c4 03 | 0x400000 | test spl, 0x3
40 f6 c7 03 | 0x400000 | test dil, 0x3
41 f6 c0 03 | 0x400000 | test r8b, 0x3
87 c0 | 0x400000 | xchg eax, eax
48 87 c1 | 0x400000 | xchg rcx, rax
8f 44 24 08 | 0x400000 | pop [rsp+0x8]
41 5c | 0x400000 | pop r12
44 8d 05 04 00 00 00 | 0x400000 | lea r8d, [rip+0x4]
e8 ca ff 7f 00 | 0xffffffff81000031 | call 0xffffffff81800000
e9 1b 00 00 00 | 0xfffffffffffffff0 | jmp 0x0000000000000010
e9 ff ff ff 7f | 0x0 | jmp 0x0000000080000004
e8 00 00 00 80 | 0x0 | call 0xffffffff80000005
0f 84 ff ff ff 7f | 0x0 | jz 0x0000000080000005
41 89 88 00 08 00 00 | 0x0 | mov [r8+0x800], ecx
ff b4 24 54 41 5d 56 | 0x0 | push [rsp+0x565d4154]
0f ae e8 | 0x0 | lfence
48 0f ba f4 47 | 0x9e37c6c7579912c7 | btr rsp, 0x47
4c 09 bf 92 b6 0b 05 | 0xffffffff81000000 | or [rdi+0x50bb692], r15
49 83 f6 80 | 0x0 | xor r14, -0x80
90 | 0x0 | nop
65 4c 2b 8e 92 d3 73 a1 | 0xffffffff81000000 | sub r9, gs:[rsi-0x5e8c2c6e]
65 4c 87 bc 77 ff ef ff ff | 0x400000 | xchg gs:[rdi+rsi*2-0x1001], r15
81 04 25 d1 e8 c9 91 95 2b 72 ea | 0x400000 | add dword [-0x6e36172f], 0xea722b95
89 fd | 0xf9ab53e0fca3da41 | mov ebp, edi
46 8d bc f6 ff ff ff 7f | 0x400000 | lea r15d, [rsi+r14*8+0x7fffffff]
fa | 0x400000 | cli
0f 32 | 0xf246045e67825992 | rdmsr
90 | 0x0 | nop
48 cf | 0xffffffff81000000 | iretq
c7 05 00 00 00 00 00 00 00 80 | 0x0 | mov dword [rip], 0x80000000
68 80 00 00 00 | 0x0 | push 0x80
fc | 0x400000 | cld
49 0f ba e3 79 | 0xffffffff81000000 | bt r11, 0x79
f3 0f 1e fa | 0x0 | endbr64
0f 8f 46 00 00 00 | 0x1e23182b742727e0 | jg 0x1e23182b7427282c
43 ff 34 11 | 0x700d767876509aa0 | push [r9+r10]
4d 85 f7 | 0xffffffff81000000 | test r15, r14
";

/// Jumps, their targets, and addresses from which they don't reach them.
const TOO_FAR: &str = "\
jmp | 0x0 | 0x7fffffffffff
jmp | 0x80000005 | 0x0
call | 0xffffffff80000004 | 0x0
jz | 0x80000006 | 0x0
";

#[test]
fn instructions_have_the_bytes_of_the_table(rt: HostRuntime) -> Result<(), Fail> {
    for line in CHOSEN.lines() {
        let Some(mut case) = case_of(line) else {
            continue
        };
        let bytes = case.bytes(rt.alloc())?;
        let at = case.number()?;
        match decode(&bytes, at) {
            Err(fault) => assert_eq!(rt; Some(fault), None, "{line}"),
            Ok((insn, _)) => {
                assert!(rt; has_text(rt.alloc(), &insn, case.text()), "{line}");
                assert!(rt; insn.encodable(), "{line}");
                match encode(rt.alloc(), &insn, at) {
                    Ok(found) => assert!(rt; found.as_slice() == bytes.as_slice(), "{line}"),
                    Err(fault) => assert_eq!(rt; Some(fault), None, "{line}"),
                }
                assert_eq!(rt; round_trip(rt.alloc(), &insn, at), Ok(insn), "{line}");
            }
        }
    }
    Ok(())
}

#[test]
fn far_targets_are_out_of_reach(rt: HostRuntime) -> Result<(), Fail> {
    for line in TOO_FAR.lines() {
        let Some(mut case) = case_of(line) else {
            continue
        };
        let jump = case.text();
        let target = case.number()?;
        let insn = match jump {
            "jmp" => Insn::Jmp(target),
            "call" => Insn::Call(target),
            _ => Insn::Jcc(4, target),
        };
        match encode(rt.alloc(), &insn, case.number()?) {
            Ok(found) => assert!(rt; found.is_empty() && false, "{line}"),
            Err(fault) => assert_eq!(rt; fault, EncodeFault::OutOfReach, "{line}"),
        }
    }
    Ok(())
}
