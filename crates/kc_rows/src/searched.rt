//! `find` and `explain` with two files, on the samples and on variants of them, as an independent model of the certifier
//! answers.

use crate::files::{Files, accepts};
use kc_gen::{Sample, sample};
use kc_runs::{Trial, each_holds, edited, edited_text, ends_so, is_told, replaced};
use kc_tables::{Case, Unread};
use sha2::{Digest, Sha256};
use std::alloc::Global;
use std::test::Fail;

/// The sample; edits of the bytes of its image, and of the text of its description; the SHA-256 of what `find` writes.
const FOUND: &str = "\
s0 | - | - | 9620516f3a26cd23f1b539ccf8c512719b344a02a2547fe6c2c28dd84a3d4e9d
s1 | - | - | f7756dce9152f15b339320f002be425d64b0e717e1fb07460764d5b2d95f825a
s2 | - | - | ce0ee3e18acdf236d24ae99eefef3f9325d8a43c567d621ba8b04ea13d5b7738
";

/// The same, and the exit code and the lines of `find`.
const REFUSED: &str = r#"# the first two lines of SYSCALL's routine exchanged; a push before them
s1 | put 10 6548892425000800000f01f8 | - | 1 | refused C6 context 0 at 0xffffffff81000000
s1 | ins 10 50 ; put 43 c9 ; del 65 1 | - | 1 | refused C7 context 0 at 0xffffffff81000000
# NMI on the stack that it interrupts; IF isn't cleared by SYSCALL; the stack of RSP0, and the IDT, are absent under the user's CR3
s1 | - | 0xffffffff81001100", ist=2 => 0xffffffff81001100" | 1 | refused C14 context 0 at 0xffffffff81000000 event nmi
s1 | - | "0x47700" => "0x47500" | 1 | refused C14 context 0 at 0xffffffff81000000 event irq 32
s1 | - | {name="t", at="0xffffffff84001000", size="0x1000", kind="stack", write=true, user_map=true} => {name="t", at="0xffffffff84001000", size="0x1000", kind="stack", write=true} | 1 | refused C14 user event irq 32
s1 | - | {name="kg" => {name="idt", at="0xffffffff85000000", size="0x1000", kind="area", write=true}, {name="kg" ;; idt = "0xffffffff82000000" => idt = "0xffffffff85000000" | 1 | refused C14 user event irq 32
# debug exceptions are excluded in `entry` too, and the handler of NMI may fault; or the routine of a machine check decides by the sign
s1 | - | 0xffffffff81000000", size="0x1000", kind="text", exec=true => 0xffffffff81000000", size="0x1000", kind="text", quiet=true, exec=true ;; {entry="0xffffffff81800040", stack=2048, events=[] => {entry="0xffffffff81800040", stack=2048, events=["fault"] | 1 | refused C14 context 2 at 0xffffffff81001144 body event nmi
s1 | cut 1210 ; dup 1110 71 1210 ; put 1255 07 | 0xffffffff81000000", size="0x1000", kind="text", exec=true => 0xffffffff81000000", size="0x1000", kind="text", quiet=true, exec=true | 1 | refused C14 context 2 at 0xffffffff81001100 event nmi
# user code may write its GS base; RDX is ORed with another bit
s1 | - | user_gs_writes = false => user_gs_writes = true | 1 | refused C4 context 1 at 0xffffffff81001033
s1 | put 51 20 | - | 1 | refused C9 context 0 at 0xffffffff81000045
# line 1 of the SYSCALL routine left out
s1 | put 10 6548892425000800000f20dc4881e4ffefffff0f22dc65488b2425080800006a2b65ff34250008000041536a3351e8cdff7f00595a415b0f20da4881ca001000005c0f22daba000000000f01f8480f07909090 | - | 1 | refused C6 context 0 at 0xffffffff81000000
# line 3 of the SYSCALL routine left out
s1 | put 1c 4881e4ffefffff0f22dc65488b2425080800006a2b65ff34250008000041536a3351e8cdff7f00595a415b0f20da4881ca001000005c0f22daba000000000f01f8480f07909090 | - | 1 | refused C4 context 0 at 0xffffffff81000013
# line 6 of the SYSCALL routine left out
s1 | put 29 6a2b65ff34250008000041536a3351e8d3ff7f00595a415b0f20da4881ca001000005c0f22daba000000000f01f8480f07909090909090909090 | - | 1 | refused C10 context 0 at 0xffffffff81000028
# line 8 of the SYSCALL routine left out
s1 | put 34 41536a3351e8d2ff7f00595a415b0f20da4881ca001000005c0f22daba000000000f01f8480f079090909090909090 | - | 1 | refused C12 context 0 at 0xffffffff81000048
# line 18 of the SYSCALL routine left out
s1 | put 54 0f22daba000000000f01f8480f0790 | - | 1 | refused C12 context 0 at 0xffffffff8100004f
# lines 4 and 5 of the SYSCALL routine exchanged
s1 | put 1f 0f22dc4881e4ffefffff | - | 1 | refused C7 context 0 at 0xffffffff81000022
# lines 13 and 14 of the SYSCALL routine exchanged
s1 | put 46 5a59 | - | 1 | refused C12 context 0 at 0xffffffff81000050
# lines 18 and 19 of the SYSCALL routine exchanged
s1 | put 54 0f22da5c | - | 1 | refused C7 context 0 at 0xffffffff81000047
# popfq before line 7 of the SYSCALL routine
s1 | put 32 9d6a2b65ff34250008000041536a3351e8c9ff7f00595a415b0f20da4881ca001000005c0f22daba000000000f01f8480f07 | - | 1 | refused C7 context 0 at 0xffffffff81000022
# push rax before line 18 of the SYSCALL routine
s1 | put 54 505c0f22daba000000000f01f8480f07 | - | 1 | refused C4 context 0 at 0xffffffff81000046
# mov rcx, r11 before line 22 of the SYSCALL routine
s1 | put 60 4c89d9480f07 | - | 1 | refused C12 context 0 at 0xffffffff81000053
# mov ecx, 0x17a; mov eax, 0x4; mov edx, 0x0; wrmsr before line 12 of the SYSCALL routine
s1 | put 41 b97a010000b804000000ba000000000f30e8b9ff7f00595a415b0f20da4881ca001000005c0f22daba000000000f01f8480f07 | - | 1 | refused C11 context 0 at 0xffffffff81000040
# mov rax, 0xffffffff83005f00; mov rax, [rax]; mov [rax], rcx before line 12 of the SYSCALL routine
s1 | put 41 48c7c0005f0083488b00488908e8bdff7f00595a415b0f20da4881ca001000005c0f22daba000000000f01f8480f07 | - | 1 | refused C7 context 0 at 0xffffffff8100003b
# line 4 of the SYSCALL routine is and rsp, -0x2001
s1 | put 23 df | - | 1 | refused C7 context 0 at 0xffffffff81000022
# line 22 of the SYSCALL routine is iretq
s1 | put 61 cf90 | - | 1 | refused C7 context 0 at 0xffffffff81000050
# line 2 of the SYSCALL routine is mov gs:[0x810], rsp
s1 | put 18 10 | - | 1 | refused C12 context 0 at 0xffffffff81000050
# IRQ: the last instruction of the user's side is sysretq
s1 | put 117 56 ; put 16f 0f075051525355565741504151415241534154415541564157e893fe7f00415f415e415d415c415b415a415941585f5e5d5b5a595848cf | - | 1 | refused C11 context 39 at 0xffffffff8100015e
# IRQ: the branch is taken the other way
s1 | put 116 85 | - | 1 | refused C10 context 46 at 0xffffffff81000177
# page fault: 16 bytes are passed at the end of the kernel's side
s1 | put 2aa 10 | - | 1 | refused C7 context 24 at 0xffffffff8100029b
# debug: the sign decides the other way
s1 | put 1036 89 | - | 1 | refused C10 context 1 at 0xffffffff81001044
# NMI: RBX remembers in RAX, which the handler loses
s1 | put 115e c0 | - | 1 | refused C4 context 9 at 0xffffffff81001158
# machine check from the user clears MCIP
s1 | put 1217 66 ; put 1247 b97a010000b800000000ba000000000f300f20d84881c8001000000f22d8415f415e415d415c415b415a415941585f5e5d5b5a59580f01f848cfb9010100c00f3285d20f88030000000f01f80f ; add 20d84881e0ffefffff0f22d8e8cbed7f00 | - | 1 | refused C14 context 12 at 0xffffffff81001100 event check
# page fault by IST 4, which is 0
s1 | - | {vector=14, entry="0xffffffff81000200"} => {vector=14, entry="0xffffffff81000200", ist=4} | 1 | refused C14 user event fault
# debug by a trap gate
s1 | - | {vector=1, entry="0xffffffff81001000", ist=1} => {vector=1, entry="0xffffffff81001000", ist=1, trap=true} | 1 | refused C14 context 40 at 0xffffffff81000100 event debug
# debug with IST 0
s1 | - | {vector=1, entry="0xffffffff81001000", ist=1} => {vector=1, entry="0xffffffff81001000"} | 1 | refused C14 context 0 at 0xffffffff81000000 event debug
# gate 13, with an error code, to the IRQ routine
s1 | - | gate = [ => gate = [  {vector=13, entry="0xffffffff81000100"}, | 1 | refused C12 context 23 at 0xffffffff8100015e
# a second maskable vector 33 whose gate leads to data
s1 | - | gate = [ => gate = [  {vector=33, entry="0xffffffff82000000"}, | 1 | refused C5 context 41 at 0xffffffff82000000
# H30 ends with any IF
s1 | - | {entry="0xffffffff81800030", stack=2048, events=[], after_if="off", returns=true} => {entry="0xffffffff81800030", stack=2048, events=[], after_if="any", returns=true} | 1 | refused C14 context 40 at 0xffffffff81000100 event debug
# H30 lists debug
s1 | - | {entry="0xffffffff81800030", stack=2048, events=[], after_if="off", returns=true} => {entry="0xffffffff81800030", stack=2048, events=["debug"], after_if="off", returns=true} | 1 | refused C14 context 1 at 0xffffffff81001044 body event debug
# the text entry isn't executable
s1 | - | {name="entry", at="0xffffffff81000000", size="0x1000", kind="text", exec=true, user_map=true} => {name="entry", at="0xffffffff81000000", size="0x1000", kind="text", user_map=true} | 1 | refused C5 context 0 at 0xffffffff81000000
# the text quiet isn't quiet
s1 | - | {name="quiet", at="0xffffffff81001000", size="0x1000", kind="text", exec=true, user_map=true, quiet=true} => {name="quiet", at="0xffffffff81001000", size="0x1000", kind="text", exec=true, user_map=true} | 1 | refused C14 context 1 at 0xffffffff81001000 event debug
# the area is absent under the user's map
s1 | - | {name="area", at="0xffffffff82000000", size="0x3000", kind="area", write=true, user_map=true} => {name="area", at="0xffffffff82000000", size="0x3000", kind="area", write=true} | 1 | refused C14 user event irq 32
# accesses to the area may fault
s1 | - | {name="area", at="0xffffffff82000000", size="0x3000", kind="area", write=true, user_map=true} => {name="area", at="0xffffffff82000000", size="0x3000", kind="area", write=true, user_map=true, may_fault=true} | 1 | refused C14 context 0 at 0xffffffff81000003 event fault
# fmask clears nothing but TF
s1 | - | "0x47700" => "0x100" | 1 | refused C14 context 0 at 0xffffffff81000000 event irq 32
# RSP0 leaves 32 bytes in t
s1 | - | rsp0 = "0xffffffff84002000" => rsp0 = "0xffffffff84001020" | 1 | refused C14 user event irq 32
# the GDT lies where nothing is
s1 | - | gdt = "0xffffffff82001000" => gdt = "0xffffffff82003000" | 1 | refused C14 user event irq 32
# SYSCALL enters the IRQ routine
s1 | - | syscall = "0xffffffff81000000" => syscall = "0xffffffff81000100" | 1 | refused C7 context 0 at 0xffffffff81000100
# instruction 1 of the NMI's routine left out
s2 | put 1110 f6442410030f8529000000488b4424204881e000f0ffff4881f8009000840f840d0000004881f8007000840f85030000005848cf4889e048c7c400a00084ff7028ff7020ff7018ff7010ff7008ff3051525355565741504151415241534154415541564157b9010100c00f32bb0000000085d20f88080000000f01f8bb01000000410f20de4c89f04881e0ffefffff0f22d8e8a9ee7f00410f22de85db0f84030000000f01f8415f415e415d415c415b415a415941585f5e5d5b5a595848cf90 | - | 1 | refused C7 context 2 at 0xffffffff8100113e
# instruction 6 of the NMI's routine left out
s2 | put 1118 22 ; put 1128 0f840d0000004881f8007000840f85030000005848cf4889e048c7c400a00084ff7028ff7020ff7018ff7010ff7008ff3051525355565741504151415241534154415541564157b9010100c00f32bb0000000085d20f88080000000f01f8bb01000000410f20de4c89f04881e0ffefffff0f22d8e8afee7f00410f22de85db0f84030000000f01f8415f415e415d415c415b415a415941585f5e5d5b5a595848cf90909090909090 | - | 1 | refused C8 context 6 at 0xffffffff81001138
# instruction 15 of the NMI's routine left out
s2 | put 1154 18ff7010ff7008ff3051525355565741504151415241534154415541564157b9010100c00f32bb0000000085d20f88080000000f01f8bb01000000410f20de4c89f04881e0ffefffff0f22d8e8abee7f00410f22de85db0f84030000000f01f8415f415e415d415c415b415a415941585f5e5d5b5a595848cf909090 | - | 1 | refused C7 context 2 at 0xffffffff810011bb
# the landing stack is the work stack
s2 | put 114c 60 | - | 1 | refused C14 context 2 at 0xffffffff81001193 body event nmi
# the work stack is absent under the user's map
s2 | - | {name="w", at="0xffffffff84009000", size="0x1000", kind="stack", write=true, user_map=true, marked=true} => {name="w", at="0xffffffff84009000", size="0x1000", kind="stack", write=true, marked=true} | 1 | refused C7 context 2 at 0xffffffff8100113f
# the page fault's gate is a trap gate
s2 | - | {vector=14, entry="0xffffffff81000200"} => {vector=14, entry="0xffffffff81000200", trap=true} | 1 | refused C10 context 40 at 0xffffffff81000177
"#;

/// The same of `explain`.
const EXPLAINED: &str = "\
# as it is
s0 | - | - | 0 | accepted contexts=13 nodes=13
# without the second SWAPGS
s1 | put 5d 480f07909090 | - | 1 | refused C12 context 0 at 0xffffffff8100004d / instruction sysretq / gs active kernel inactive user / map user / nmi open / rsp entry rsp / because the return does not restore the interrupted context
";

/// The variant that a case's next columns tell.
fn variant_of(alloc: Global, case: &mut Case<'_>) -> Result<Files, Unread> {
    let which = match case.text() {
        "s0" => Sample::S0,
        "s1" => Sample::S1,
        _ => Sample::S2,
    };
    let Ok((image, config)) = sample(alloc, which) else {
        return Err(Unread::NoMemory);
    };
    Ok(Files {
        image: edited(alloc, &image, case.text())?,
        config: edited_text(alloc, &config, case.text())?,
    })
}

const FIND: &str = "find / i / c";

/// Variants for which a certificate is found.
struct Found;

impl Trial for Found {
    fn holds(&self, alloc: Global, case: &mut Case<'_>) -> Result<bool, Unread> {
        let files = variant_of(alloc, case)?;
        let end = files.run(alloc, FIND, b"")?;
        let digest = hex::encode(alloc, Sha256::digest(&end.written))?;
        Ok(end.code == 0 && digest.as_str() == case.text())
    }
}

/// Variants with what these words' run says of them.
#[derive(Drop)]
struct Variants {
    words: &'static str,
}

impl Trial for Variants {
    fn holds(&self, alloc: Global, case: &mut Case<'_>) -> Result<bool, Unread> {
        let files = variant_of(alloc, case)?;
        let end = files.run(alloc, self.words, b"")?;
        is_told(alloc, case, &end)
    }
}

#[test]
fn what_is_found_is_the_same_byte_for_byte(rt: HostRuntime) -> Result<(), Fail> {
    each_holds(rt.alloc(), &Found, FOUND)
}

#[test]
fn check_accepts_what_was_found(rt: HostRuntime) -> Result<(), Fail> {
    let alloc = rt.alloc();
    let files = Files::of(alloc, Sample::S0)?;
    let found = files.run(alloc, FIND, b"")?;
    assert!(rt;
        accepts(
            alloc,
            Sample::S0,
            &found.written,
            "accepted contexts=13 nodes=13\n"
        )?
    );
    Ok(())
}

#[test]
fn each_variant_is_refused_at_its_place(rt: HostRuntime) -> Result<(), Fail> {
    each_holds(rt.alloc(), &Variants { words: FIND }, REFUSED)
}

#[test]
fn a_refusal_of_what_was_found_is_explained(rt: HostRuntime) -> Result<(), Fail> {
    let variants = Variants {
        words: "explain / i / c",
    };
    each_holds(rt.alloc(), &variants, EXPLAINED)
}

#[test]
fn a_table_past_the_limits_is_refused(rt: HostRuntime) -> Result<(), Fail> {
    let alloc = rt.alloc();
    let mut files = Files::of(alloc, Sample::S0)?;
    // 4,000 NOPs before the jump, at each of the 13 contexts
    let nops = vec![in alloc; 0x90; 4_000]?;
    files.image = replaced(alloc, &files.image, 16, 0, &nops)?;
    let end = files.run(alloc, FIND, b"")?;
    assert!(rt; end.is(1, "refused limits\n"));
    Ok(())
}

/// The words, with no read and no write that fails; the exit code and the line.
const MADE: &str = "\
gen / 7 / 200 | - | - | 0 | gen seed=7 size=200 contexts=41 nodes=1587 digest=fc042c9d6b4e6fa6f2fc4d213e613bc3029d65adad312d4372baad0cf6ec7e2d
gen / 007 / 0200 | - | - | 0 | gen seed=7 size=200 contexts=41 nodes=1587 digest=fc042c9d6b4e6fa6f2fc4d213e613bc3029d65adad312d4372baad0cf6ec7e2d
";

/// Inputs that are made.
struct Made;

impl Trial for Made {
    fn holds(&self, alloc: Global, case: &mut Case<'_>) -> Result<bool, Unread> {
        ends_so(alloc, case, &[])
    }
}

#[test]
fn a_made_input_has_the_same_certificate_each_time(rt: HostRuntime) -> Result<(), Fail> {
    each_holds(rt.alloc(), &Made, MADE)
}
