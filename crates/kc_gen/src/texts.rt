//! The texts of the samples' configurations, in pieces.

/// The version, and the head of the regions.
pub const HEAD: &str = r#"version = 1
region = [
"#;

/// The text of the entries from SYSCALL, interrupts and page faults.
pub const ENTRY: &str =
    r#" {name="entry", at="0xffffffff81000000", size="0x1000", kind="text", exec=true, user_map=true},
"#;

/// The same, where no debug trap comes.
pub const QUIET_ENTRY: &str =
    r#" {name="entry", at="0xffffffff81000000", size="0x1000", kind="text", exec=true, user_map=true, quiet=true},
"#;

/// The text of the entries with stacks of their own.
pub const QUIET_REGION: &str =
    r#" {name="quiet", at="0xffffffff81001000", size="0x1000", kind="text", exec=true, user_map=true, quiet=true},
"#;

/// The text of the generated instructions.
pub const GENERATED_REGION: &str =
    r#" {name="gen", at="0xffffffff81100000", size="0x10000", kind="text", exec=true},
"#;

/// The area, and the stacks with their guards.
pub const STACKS: &str =
    r#" {name="area", at="0xffffffff82000000", size="0x3000", kind="area", write=true, user_map=true},
 {name="kg", at="0xffffffff83001000", size="0x1000", kind="guard"},
 {name="k", at="0xffffffff83002000", size="0x4000", kind="stack", write=true, marked=true},
 {name="tg", at="0xffffffff84000000", size="0x1000", kind="guard"},
 {name="t", at="0xffffffff84001000", size="0x1000", kind="stack", write=true, user_map=true},
 {name="dg", at="0xffffffff84002000", size="0x1000", kind="guard"},
 {name="d", at="0xffffffff84003000", size="0x1000", kind="stack", write=true, user_map=true},
 {name="ng", at="0xffffffff84004000", size="0x1000", kind="guard"},
 {name="n", at="0xffffffff84005000", size="0x1000", kind="stack", write=true, user_map=true},
 {name="mg", at="0xffffffff84006000", size="0x1000", kind="guard"},
 {name="m", at="0xffffffff84007000", size="0x1000", kind="stack", write=true, user_map=true},
"#;

/// The stack to which the NMI entry moves its frame.
pub const WORK_STACK: &str = r#" {name="wg", at="0xffffffff84008000", size="0x1000", kind="guard"},
 {name="w", at="0xffffffff84009000", size="0x1000", kind="stack", write=true, user_map=true, marked=true},
"#;

/// The user's memory.
pub const USER: &str =
    r#" {name="user", at="0x10000", size="0x7ffffffe0000", kind="user", write=true, user_map=true},
]
"#;

/// An entry for each vector.
pub const GATES: &str = r#"gate = [
 {vector=1, entry="0xffffffff81001000", ist=1},
 {vector=2, entry="0xffffffff81001100", ist=2},
 {vector=14, entry="0xffffffff81000200"},
 {vector=18, entry="0xffffffff81001200", ist=3},
 {vector=32, entry="0xffffffff81000100"},
]
"#;

/// The same entry for every vector.
pub const ONE_ENTRY_GATES: &str = r#"gate = [
 {vector=1, entry="0xffffffff81000000", ist=1},
 {vector=2, entry="0xffffffff81000000", ist=2},
 {vector=14, entry="0xffffffff81000000"},
 {vector=18, entry="0xffffffff81000000", ist=3},
]
"#;

/// The handlers of interrupts, page faults and debug traps.
pub const HANDLERS: &str = r#"handler = [
 {entry="0xffffffff81800000", stack=2048, events=["irq","fault"], after_if="off", returns=true},
 {entry="0xffffffff81800010", stack=2048, events=[], after_if="off", returns=true},
 {entry="0xffffffff81800020", stack=2048, events=[], after_if="off", returns=true},
 {entry="0xffffffff81800030", stack=2048, events=[], after_if="off", returns=true},
"#;

/// The NMI's handler.
pub const NMI_HANDLER: &str =
    r#" {entry="0xffffffff81800040", stack=2048, events=[], after_if="off", returns=true},
"#;

/// The NMI's handler, which may fault.
pub const FAULTING_NMI_HANDLER: &str =
    r#" {entry="0xffffffff81800040", stack=2048, events=["fault"], after_if="off", returns=true},
"#;

/// The handlers of machine checks, and the words of the area.
pub const OTHER_HANDLERS: &str =
    r#" {entry="0xffffffff81800050", stack=2048, events=[], after_if="off", returns=true},
 {entry="0xffffffff81800060", stack=2048, events=[], after_if="off", returns=false},
]
word = [{at="0xffffffff82002800", value="0x0"}, {at="0xffffffff82002808", value="0xffffffff83006000"}]
"#;

/// The processor.
pub const CPU: &str = r#"[cpu]
kernel_gs = "0xffffffff82002000"
kernel_cr3 = "0x1000000"
user_cr3 = "0x1001000"
idt = "0xffffffff82000000"
gdt = "0xffffffff82001000"
tss = "0xffffffff82002000"
syscall = "0xffffffff81000000"
fmask = "0x47700"
star_kernel = 16
star_user = 35
user_cs32 = 35
user_gs_writes = false
rsp0 = "0xffffffff84002000"
ist = ["0xffffffff84004000","0xffffffff84006000","0xffffffff84008000","0x0","0x0","0x0","0x0"]
"#;
