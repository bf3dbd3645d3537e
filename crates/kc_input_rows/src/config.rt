//! Descriptions: edits of a sample's, and what is read or the first fault.

use crate::images::file_named;
use kc_config::{ConfigFault, read_config};
use kc_gen::{Sample, sample};
use kc_image::{Image, read_image};
use std::alloc::Global;
use std::io;
use std::test::Fail;

/// A text of the sample's description, what takes its place, and the answer: each key and each rule. From an independent
/// model of the rules.
const EDITS: &str = "\
version = 1 => version = 1 => accepted
version = 1 =>  => 2 Missing version
version = 1 => version = \"1\" => 3 WrongKind version
version = 1 => version = 0 => 4 OutOfRange version
[cpu] =>  => 2 Missing cpu
[cpu] => [[cpu]] => 3 WrongKind cpu
region = [ => other = [ => 2 Missing region
region = [ => region = [ 1, => 3 WrongKind region
gate = [ => other = [ => 2 Missing gate
gate = [ => gate = [ 1, => 3 WrongKind gate
word = [{at=\"0xffffffff82002800\", value=\"0x0\"}, {at=\"0xffffffff82002808\", value=\"0xffffffff83006000\"}] => word = {} => 3 WrongKind word
kernel_gs = \"0xffffffff82002000\" =>  => 2 Missing cpu.kernel_gs
kernel_gs = \"0xffffffff82002000\" => kernel_gs = 5 => 3 WrongKind cpu.kernel_gs
kernel_gs = \"0xffffffff82002000\" => kernel_gs = \"no_such_name\" => 6 NoSymbol cpu.kernel_gs
kernel_cr3 = \"0x1000000\" =>  => 2 Missing cpu.kernel_cr3
kernel_cr3 = \"0x1000000\" => kernel_cr3 = 5 => 3 WrongKind cpu.kernel_cr3
kernel_cr3 = \"0x1000000\" => kernel_cr3 = \"no_such_name\" => 6 NoSymbol cpu.kernel_cr3
user_cr3 = \"0x1001000\" =>  => 2 Missing cpu.user_cr3
user_cr3 = \"0x1001000\" => user_cr3 = 5 => 3 WrongKind cpu.user_cr3
user_cr3 = \"0x1001000\" => user_cr3 = \"no_such_name\" => 6 NoSymbol cpu.user_cr3
idt = \"0xffffffff82000000\" =>  => 2 Missing cpu.idt
idt = \"0xffffffff82000000\" => idt = 5 => 3 WrongKind cpu.idt
idt = \"0xffffffff82000000\" => idt = \"no_such_name\" => 6 NoSymbol cpu.idt
gdt = \"0xffffffff82001000\" =>  => 2 Missing cpu.gdt
gdt = \"0xffffffff82001000\" => gdt = 5 => 3 WrongKind cpu.gdt
gdt = \"0xffffffff82001000\" => gdt = \"no_such_name\" => 6 NoSymbol cpu.gdt
tss = \"0xffffffff82002000\" =>  => 2 Missing cpu.tss
tss = \"0xffffffff82002000\" => tss = 5 => 3 WrongKind cpu.tss
tss = \"0xffffffff82002000\" => tss = \"no_such_name\" => 6 NoSymbol cpu.tss
syscall = \"0xffffffff81000000\" =>  => 2 Missing cpu.syscall
syscall = \"0xffffffff81000000\" => syscall = 5 => 3 WrongKind cpu.syscall
syscall = \"0xffffffff81000000\" => syscall = \"no_such_name\" => 6 NoSymbol cpu.syscall
fmask = \"0x47700\" =>  => 2 Missing cpu.fmask
fmask = \"0x47700\" => fmask = 5 => 3 WrongKind cpu.fmask
fmask = \"0x47700\" => fmask = \"no_such_name\" => 6 NoSymbol cpu.fmask
rsp0 = \"0xffffffff84002000\" =>  => 2 Missing cpu.rsp0
rsp0 = \"0xffffffff84002000\" => rsp0 = 5 => 3 WrongKind cpu.rsp0
rsp0 = \"0xffffffff84002000\" => rsp0 = \"no_such_name\" => 6 NoSymbol cpu.rsp0
kernel_gs = \"0xffffffff82002000\" => kernel_gs = \"0xffff7fffffffffff\" => 4 OutOfRange cpu.kernel_gs
idt = \"0xffffffff82000000\" => idt = \"0x7fffffffffffffff\" => 4 OutOfRange cpu.idt
gdt = \"0xffffffff82001000\" => gdt = \"0x7fffffffffffffff\" => 4 OutOfRange cpu.gdt
syscall = \"0xffffffff81000000\" => syscall = \"0x7fffffffffffffff\" => 4 OutOfRange cpu.syscall
tss = \"0xffffffff82002000\" => tss = \"0x7fffffffffffffff\" => 4 OutOfRange cpu.tss
kernel_cr3 = \"0x1000000\" => kernel_cr3 = \"0x8000000000000000\" => 4 OutOfRange cpu.kernel_cr3
user_cr3 = \"0x1001000\" => user_cr3 = \"0x8000000000000000\" => 4 OutOfRange cpu.user_cr3
fmask = \"0x47700\" => fmask = \"0x2\" => 4 OutOfRange cpu.fmask
star_kernel = 16 =>  => 2 Missing cpu.star_kernel
star_kernel = 16 => star_kernel = \"16\" => 3 WrongKind cpu.star_kernel
star_kernel = 16 => star_kernel = 0 => 4 OutOfRange cpu.star_kernel
star_user = 35 =>  => 2 Missing cpu.star_user
star_user = 35 => star_user = \"0x23\" => 3 WrongKind cpu.star_user
star_user = 35 => star_user = 12 => 4 OutOfRange cpu.star_user
user_cs32 = 35 => user_cs32 = \"35\" => 3 WrongKind cpu.user_cs32
user_cs32 = 35 => user_cs32 = 3 => 4 OutOfRange cpu.user_cs32
user_gs_writes = false =>  => 2 Missing cpu.user_gs_writes
user_gs_writes = false => user_gs_writes = \"false\" => 3 WrongKind cpu.user_gs_writes
ist = [\"0xffffffff84004000\",\"0xffffffff84006000\",\"0xffffffff84008000\",\"0x0\",\"0x0\",\"0x0\",\"0x0\"] =>  => 2 Missing cpu.ist
ist = [\"0xffffffff84004000\",\"0xffffffff84006000\",\"0xffffffff84008000\",\"0x0\",\"0x0\",\"0x0\",\"0x0\"] => ist = \"0x0\" => 3 WrongKind cpu.ist
ist = [\"0xffffffff84004000\",\"0xffffffff84006000\",\"0xffffffff84008000\",\"0x0\",\"0x0\",\"0x0\",\"0x0\"] => ist = [\"no_such_name\", \"0x0\", \"0x0\", \"0x0\", \"0x0\", \"0x0\", \"0x0\"] => 6 NoSymbol cpu.ist
{name=\"kg\", at=\"0xffffffff83001000\", size=\"0x1000\", kind=\"guard\"} => {at=\"0xffffffff83001000\", size=\"0x1000\", kind=\"guard\"} => 2 Missing region.3.name
{name=\"kg\", at=\"0xffffffff83001000\", size=\"0x1000\", kind=\"guard\"} => {name=5, at=\"0xffffffff83001000\", size=\"0x1000\", kind=\"guard\"} => 3 WrongKind region.3.name
{name=\"kg\", at=\"0xffffffff83001000\", size=\"0x1000\", kind=\"guard\"} => {name=\"kg\", size=\"0x1000\", kind=\"guard\"} => 2 Missing region.3.at
{name=\"kg\", at=\"0xffffffff83001000\", size=\"0x1000\", kind=\"guard\"} => {name=\"kg\", at=5, size=\"0x1000\", kind=\"guard\"} => 3 WrongKind region.3.at
{name=\"kg\", at=\"0xffffffff83001000\", size=\"0x1000\", kind=\"guard\"} => {name=\"kg\", at=\"0xffffffff83001000\", kind=\"guard\"} => 2 Missing region.3.size
{name=\"kg\", at=\"0xffffffff83001000\", size=\"0x1000\", kind=\"guard\"} => {name=\"kg\", at=\"0xffffffff83001000\", size=4096, kind=\"guard\"} => 3 WrongKind region.3.size
{name=\"kg\", at=\"0xffffffff83001000\", size=\"0x1000\", kind=\"guard\"} => {name=\"kg\", at=\"0xffffffff83001000\", size=\"0x1000\"} => 2 Missing region.3.kind
{name=\"kg\", at=\"0xffffffff83001000\", size=\"0x1000\", kind=\"guard\"} => {name=\"kg\", at=\"0xffffffff83001000\", size=\"0x1000\", kind=1} => 3 WrongKind region.3.kind
{name=\"kg\", at=\"0xffffffff83001000\", size=\"0x1000\", kind=\"guard\"} => {name=\"\", at=\"0xffffffff83001000\", size=\"0x1000\", kind=\"guard\"} => 4 OutOfRange region.3.name
{name=\"kg\", at=\"0xffffffff83001000\", size=\"0x1000\", kind=\"guard\"} => {name=\"kg\", at=\"no_such_name\", size=\"0x1000\", kind=\"guard\"} => 6 NoSymbol region.3.at
{name=\"kg\", at=\"0xffffffff83001000\", size=\"0x1000\", kind=\"guard\"} => {name=\"kg\", at=\"0xffffffff83001000\", size=\"no_such_name\", kind=\"guard\"} => 6 NoSymbol region.3.size
{name=\"kg\", at=\"0xffffffff83001000\", size=\"0x1000\", kind=\"guard\"} => {name=\"kg\", at=\"0xffffffff83001000\", size=\"0x1000\", kind=\"Text\"} => 4 OutOfRange region.3.kind
{name=\"area\", at=\"0xffffffff82000000\", size=\"0x3000\", kind=\"area\", write=true, user_map=true} => {name=\"area\", at=\"0xffffffff82000000\", size=\"0x3000\", kind=\"area\", write=true, user_map=1} => 3 WrongKind region.2.user_map
{name=\"area\", at=\"0xffffffff82000000\", size=\"0x3000\", kind=\"area\", write=true, user_map=true} => {name=\"area\", at=\"0xffffffff82000000\", size=\"0x3000\", kind=\"area\", write=1, user_map=true} => 3 WrongKind region.2.write
{name=\"area\", at=\"0xffffffff82000000\", size=\"0x3000\", kind=\"area\", write=true, user_map=true} => {name=\"area\", at=\"0xffffffff82000000\", size=\"0x3000\", kind=\"area\", write=true, user_map=true, exec=1} => 3 WrongKind region.2.exec
{name=\"area\", at=\"0xffffffff82000000\", size=\"0x3000\", kind=\"area\", write=true, user_map=true} => {name=\"area\", at=\"0xffffffff82000000\", size=\"0x3000\", kind=\"area\", write=true, user_map=true, may_fault=1} => 3 WrongKind region.2.may_fault
{name=\"area\", at=\"0xffffffff82000000\", size=\"0x3000\", kind=\"area\", write=true, user_map=true} => {name=\"area\", at=\"0xffffffff82000000\", size=\"0x3000\", kind=\"area\", write=true, user_map=true, quiet=1} => 3 WrongKind region.2.quiet
{name=\"area\", at=\"0xffffffff82000000\", size=\"0x3000\", kind=\"area\", write=true, user_map=true} => {name=\"area\", at=\"0xffffffff82000000\", size=\"0x3000\", kind=\"area\", write=true, user_map=true, marked=1} => 3 WrongKind region.2.marked
{name=\"area\", at=\"0xffffffff82000000\", size=\"0x3000\", kind=\"area\", write=true, user_map=true} => {name=\"area\", at=\"0xffffffff82000000\", size=\"0x3000\", kind=\"area\", write=true, user_map=true, exec=true} => 4 OutOfRange region.2.exec
{name=\"area\", at=\"0xffffffff82000000\", size=\"0x3000\", kind=\"area\", write=true, user_map=true} => {name=\"area\", at=\"0xffffffff82000000\", size=\"0x3000\", kind=\"area\", write=true, user_map=true, quiet=true} => 4 OutOfRange region.2.quiet
{name=\"area\", at=\"0xffffffff82000000\", size=\"0x3000\", kind=\"area\", write=true, user_map=true} => {name=\"area\", at=\"0xffffffff82000000\", size=\"0x3000\", kind=\"area\", write=true, user_map=true, marked=true} => 4 OutOfRange region.2.marked
{name=\"area\", at=\"0xffffffff82000000\", size=\"0x3000\", kind=\"area\", write=true, user_map=true} => {name=\"area\", at=\"0xffffffff82000000\", size=\"0x3000\", kind=\"area\", write=true, user_map=true, user-map=true} => 5 UnknownKey region.2.user-map
{name=\"area\", at=\"0xffffffff82000000\", size=\"0x3000\", kind=\"area\", write=true, user_map=true} => {name=\"area\", at=\"0xffffffff82000000\", size=\"0x3000\", kind=\"area\", write=true, user_map=true, base=\"0x0\"} => 5 UnknownKey region.2.base
{name=\"area\", at=\"0xffffffff82000000\", size=\"0x3000\", kind=\"area\", write=true, user_map=true} => {name=\"area\", at=\"0xffffffff82000000\", size=\"0x3000\", kind=\"area\", write=true, user_map=true, x=1, b=2} => 5 UnknownKey region.2.b
{name=\"area\", at=\"0xffffffff82000000\", size=\"0x3000\", kind=\"area\", write=true, user_map=true} => {name=\"area\", at=\"0xffffffff82000000\", size=\"0x3000\", kind=\"area\", write=true, user_map=true, Write=true} => 5 UnknownKey region.2.Write
{vector=32, entry=\"0xffffffff81000100\"} => {entry=\"0xffffffff81000100\"} => 2 Missing gate.4.vector
{vector=32, entry=\"0xffffffff81000100\"} => {vector=32} => 2 Missing gate.4.entry
{vector=32, entry=\"0xffffffff81000100\"} => {vector=\"32\", entry=\"0xffffffff81000100\"} => 3 WrongKind gate.4.vector
{vector=32, entry=\"0xffffffff81000100\"} => {vector=-1, entry=\"0xffffffff81000100\"} => 4 OutOfRange gate.4.vector
{vector=32, entry=\"0xffffffff81000100\"} => {vector=32, entry=5} => 3 WrongKind gate.4.entry
{vector=32, entry=\"0xffffffff81000100\"} => {vector=32, entry=\"no_such_name\"} => 6 NoSymbol gate.4.entry
{vector=32, entry=\"0xffffffff81000100\"} => {vector=32, entry=\"0xffffffff81000100\", ist=\"1\"} => 3 WrongKind gate.4.ist
{vector=32, entry=\"0xffffffff81000100\"} => {vector=32, entry=\"0xffffffff81000100\", ist=-1} => 4 OutOfRange gate.4.ist
{vector=32, entry=\"0xffffffff81000100\"} => {vector=32, entry=\"0xffffffff81000100\", trap=1} => 3 WrongKind gate.4.trap
{vector=32, entry=\"0xffffffff81000100\"} => {vector=32, entry=\"0xffffffff81000100\", user=1} => 3 WrongKind gate.4.user
{vector=32, entry=\"0xffffffff81000100\"} => {vector=31, entry=\"0xffffffff81000100\", user=true} => 4 OutOfRange gate.4.user
{vector=1, entry=\"0xffffffff81001000\", ist=1} => {vector=1, entry=\"0xffffffff81001000\", ist=1, dpl=3} => 5 UnknownKey gate.0.dpl
{entry=\"0xffffffff81800010\", stack=2048, events=[], after_if=\"off\", returns=true} => {stack=2048, events=[], after_if=\"off\", returns=true} => 2 Missing handler.1.entry
{entry=\"0xffffffff81800010\", stack=2048, events=[], after_if=\"off\", returns=true} => {entry=\"0xffffffff81800010\", events=[], after_if=\"off\", returns=true} => 2 Missing handler.1.stack
{entry=\"0xffffffff81800010\", stack=2048, events=[], after_if=\"off\", returns=true} => {entry=\"0xffffffff81800010\", stack=2048, after_if=\"off\", returns=true} => 2 Missing handler.1.events
{entry=\"0xffffffff81800010\", stack=2048, events=[], after_if=\"off\", returns=true} => {entry=\"0xffffffff81800010\", stack=2048, events=[], returns=true} => 2 Missing handler.1.after_if
{entry=\"0xffffffff81800010\", stack=2048, events=[], after_if=\"off\", returns=true} => {entry=\"0xffffffff81800010\", stack=2048, events=[], after_if=\"off\"} => 2 Missing handler.1.returns
{entry=\"0xffffffff81800010\", stack=2048, events=[], after_if=\"off\", returns=true} => {entry=5, stack=2048, events=[], after_if=\"off\", returns=true} => 3 WrongKind handler.1.entry
{entry=\"0xffffffff81800010\", stack=2048, events=[], after_if=\"off\", returns=true} => {entry=\"no_such_name\", stack=2048, events=[], after_if=\"off\", returns=true} => 6 NoSymbol handler.1.entry
{entry=\"0xffffffff81800010\", stack=2048, events=[], after_if=\"off\", returns=true} => {entry=\"0xffffffff81800010\", stack=\"2048\", events=[], after_if=\"off\", returns=true} => 3 WrongKind handler.1.stack
{entry=\"0xffffffff81800010\", stack=2048, events=[], after_if=\"off\", returns=true} => {entry=\"0xffffffff81800010\", stack=4, events=[], after_if=\"off\", returns=true} => 4 OutOfRange handler.1.stack
{entry=\"0xffffffff81800010\", stack=2048, events=[], after_if=\"off\", returns=true} => {entry=\"0xffffffff81800010\", stack=2048, events=\"irq\", after_if=\"off\", returns=true} => 3 WrongKind handler.1.events
{entry=\"0xffffffff81800010\", stack=2048, events=[], after_if=\"off\", returns=true} => {entry=\"0xffffffff81800010\", stack=2048, events=[\"nmi\"], after_if=\"off\", returns=true} => 4 OutOfRange handler.1.events
{entry=\"0xffffffff81800010\", stack=2048, events=[], after_if=\"off\", returns=true} => {entry=\"0xffffffff81800010\", stack=2048, events=[], after_if=true, returns=true} => 3 WrongKind handler.1.after_if
{entry=\"0xffffffff81800010\", stack=2048, events=[], after_if=\"off\", returns=true} => {entry=\"0xffffffff81800010\", stack=2048, events=[], after_if=\"Off\", returns=true} => 4 OutOfRange handler.1.after_if
{entry=\"0xffffffff81800010\", stack=2048, events=[], after_if=\"off\", returns=true} => {entry=\"0xffffffff81800010\", stack=2048, events=[], after_if=\"off\", returns=1} => 3 WrongKind handler.1.returns
{entry=\"0xffffffff81800010\", stack=2048, events=[], after_if=\"off\", returns=true} => {entry=\"0xffffffff81800010\", stack=2048, events=[], after_if=\"off\", returns=true, name=\"do_irq\"} => 5 UnknownKey handler.1.name
{at=\"0xffffffff82002808\", value=\"0xffffffff83006000\"} => {value=\"0xffffffff83006000\"} => 2 Missing word.1.at
{at=\"0xffffffff82002808\", value=\"0xffffffff83006000\"} => {at=\"0xffffffff82002808\"} => 2 Missing word.1.value
{at=\"0xffffffff82002808\", value=\"0xffffffff83006000\"} => {at=5, value=\"0xffffffff83006000\"} => 3 WrongKind word.1.at
{at=\"0xffffffff82002808\", value=\"0xffffffff83006000\"} => {at=\"no_such_name\", value=\"0xffffffff83006000\"} => 6 NoSymbol word.1.at
{at=\"0xffffffff82002808\", value=\"0xffffffff83006000\"} => {at=\"0xffffffff82002809\", value=\"0xffffffff83006000\"} => 4 OutOfRange word.1.at
{at=\"0xffffffff82002808\", value=\"0xffffffff83006000\"} => {at=\"0xffffffff82002808\", value=0} => 3 WrongKind word.1.value
{at=\"0xffffffff82002808\", value=\"0xffffffff83006000\"} => {at=\"0xffffffff82002808\", value=\"no_such_name\"} => 6 NoSymbol word.1.value
{at=\"0xffffffff82002808\", value=\"0xffffffff83006000\"} => {at=\"0xffffffff82002808\", value=\"0xffffffff83006000\", size=8} => 5 UnknownKey word.1.size
{name=\"kg\", at=\"0xffffffff83001000\", size=\"0x1000\", kind=\"guard\"} => {name=\"kg\", at=\"0xffffffff83001000\", size=\"0x0\", kind=\"guard\"} => 7 Regions region.3
{name=\"dg\", at=\"0xffffffff84002000\", size=\"0x1000\", kind=\"guard\"} => {name=\"dg\", at=\"0xffffffff83003000\", size=\"0x1000\", kind=\"guard\"} => 7 Regions region.7
{name=\"user\", at=\"0x10000\", size=\"0x7ffffffe0000\", kind=\"user\", write=true, user_map=true} => {name=\"user\", at=\"0x1\", size=\"0x800000000000\", kind=\"user\", write=true, user_map=true} => 4 OutOfRange region.13.at
 {name=\"kg\", at=\"0xffffffff83001000\", size=\"0x1000\", kind=\"guard\"}, =>  => 8 GuardMissing region.3
{name=\"mg\", at=\"0xffffffff84006000\", size=\"0x1000\", kind=\"guard\"} => {name=\"mg\", at=\"0xffffffff84006000\", size=\"0x1000\", kind=\"area\"} => 8 GuardMissing region.12
{name=\"kg\", at=\"0xffffffff83001000\", size=\"0x1000\", kind=\"guard\"} => {name=\"kg\", at=\"0xffffffff83006000\", size=\"0x1000\", kind=\"guard\"} => 8 GuardMissing region.4
 {vector=1, entry=\"0xffffffff81001000\", ist=1}, =>  => 2 Missing gate.1
 {vector=2, entry=\"0xffffffff81001100\", ist=2}, =>  => 2 Missing gate.2
 {vector=14, entry=\"0xffffffff81000200\"}, =>  => 2 Missing gate.14
 {vector=18, entry=\"0xffffffff81001200\", ist=3}, =>  => 2 Missing gate.18
{entry=\"0xffffffff81800060\", stack=2048, events=[], after_if=\"off\", returns=false} => {entry=\"0xffffffff81800000\", stack=2048, events=[], after_if=\"off\", returns=false} => 4 OutOfRange handler.6.entry
{name=\"area\", at=\"0xffffffff82000000\", size=\"0x3000\", kind=\"area\", write=true, user_map=true} => {name=\"area\", at=\"0xffffffff82000000\", size=\"0xffffffffffffffff\", write=true, user_map=true} => 4 OutOfRange region.2.size
idt = \"0xffffffff82000000\" => idt = 0xffffffff82000000 => 1 Syntax -
{vector=32, entry=\"0xffffffff81000100\"} => {vector=32, entry=\"0xffffffff81000100\", a.b=1} => 5 UnknownKey gate.4.a
kernel_gs = \"0xffffffff82002000\" => kernel_gs = \"0xffff800000000000\" => accepted
kernel_gs = \"0xffffffff82002000\" => kernel_gs = \"0xffffffffffffffff\" => accepted
idt = \"0xffffffff82000000\" => idt = \"0x8000000000000000\" => accepted
idt = \"0xffffffff82000000\" => idt = \"0xffffffffffffffff\" => accepted
gdt = \"0xffffffff82001000\" => gdt = \"0x8000000000000000\" => accepted
gdt = \"0xffffffff82001000\" => gdt = \"0xffffffffffffffff\" => accepted
syscall = \"0xffffffff81000000\" => syscall = \"0x8000000000000000\" => accepted
syscall = \"0xffffffff81000000\" => syscall = \"0xffffffffffffffff\" => accepted
kernel_cr3 = \"0x1000000\" => kernel_cr3 = \"0x7fffffffffffffff\" => accepted
kernel_cr3 = \"0x1000000\" => kernel_cr3 = \"0x0\" => accepted
user_cr3 = \"0x1001000\" => user_cr3 = \"0x7fffffffffffffff\" => accepted
user_cr3 = \"0x1001000\" => user_cr3 = \"0x0\" => accepted
fmask = \"0x47700\" => fmask = \"0x0\" => accepted
fmask = \"0x47700\" => fmask = \"0x1\" => accepted
rsp0 = \"0xffffffff84002000\" => rsp0 = \"0x0\" => accepted
rsp0 = \"0xffffffff84002000\" => rsp0 = \"0x1\" => accepted
star_kernel = 16 => star_kernel = 8 => accepted
star_kernel = 16 => star_kernel = 24 => accepted
star_user = 35 => star_user = 8 => accepted
star_user = 35 => star_user = 9 => accepted
user_cs32 = 35 => user_cs32 = 11 => accepted
user_cs32 = 35 => user_cs32 = 19 => accepted
user_gs_writes = false => user_gs_writes = true => accepted
{name=\"kg\", at=\"0xffffffff83001000\", size=\"0x1000\", kind=\"guard\"} => {name=\"_0z9\", at=\"0xffffffff83001000\", size=\"0x1000\", kind=\"guard\"} => accepted
{name=\"kg\", at=\"0xffffffff83001000\", size=\"0x1000\", kind=\"guard\"} => {name=\"k\", at=\"0xffffffff83001000\", size=\"0x1000\", kind=\"guard\"} => accepted
{vector=32, entry=\"0xffffffff81000100\"} => {vector=0, entry=\"0xffffffff81000100\"} => accepted
{vector=32, entry=\"0xffffffff81000100\"} => {vector=7, entry=\"0xffffffff81000100\"} => accepted
{vector=1, entry=\"0xffffffff81001000\", ist=1} => {vector=1, entry=\"0xffffffff81001000\", ist=1, user=false} => accepted
{entry=\"0xffffffff81800010\", stack=2048, events=[], after_if=\"off\", returns=true} => {entry=\"0x0\", stack=2048, events=[], after_if=\"off\", returns=true} => accepted
{at=\"0xffffffff82002808\", value=\"0xffffffff83006000\"} => {at=\"0xffffffff82002810\", value=\"0xffffffff83006000\"} => accepted
{at=\"0xffffffff82002808\", value=\"0xffffffff83006000\"} => {at=\"0xffffffff82002ff8\", value=\"0xffffffff83006000\"} => accepted
tss = \"0xffffffff82002000\" => tss = \"0xffffffff82002f98\" => accepted
\"0x0\",\"0x0\",\"0x0\",\"0x0\"] => \"0x0\",\"0x0\",\"0x0\",\"0x0\",] => accepted
stack=2048, events=[\"irq\",\"fault\"] => frame=4, stack=2048, events=[\"irq\",\"fault\"] => 4 OutOfRange handler.0.frame
stack=2048, events=[\"irq\",\"fault\"] => frame=8, stack=2048, events=[\"irq\",\"fault\"] => accepted
stack=2048, events=[\"irq\",\"fault\"] => frame=4096, stack=2048, events=[\"irq\",\"fault\"] => accepted
stack=2048, events=[\"irq\",\"fault\"] => frame=4104, stack=2048, events=[\"irq\",\"fault\"] => 4 OutOfRange handler.0.frame
version = 1 => b = 1 => 2 Missing version
{vector=18, entry=\"0xffffffff81001200\", ist=3}, =>  => 2 Missing gate.18
kernel_gs = \"0xffffffff82002000\" => kernel_gs = 0xffffffff82002000 => 1 Syntax -
";

/// The same over an image whose symbol `entry` is at 0xffffffff81000000.
const SYMBOLS: &str = "\
syscall = \"0xffffffff81000000\" => syscall = \"entry\" => accepted
rsp0 = \"0xffffffff84002000\" => rsp0 = \"entry+0x10\" => accepted
rsp0 = \"0xffffffff84002000\" => rsp0 = \"entry+0x7effffff\" => accepted
rsp0 = \"0xffffffff84002000\" => rsp0 = \"entry+0x7f000000\" => 4 OutOfRange cpu.rsp0
rsp0 = \"0xffffffff84002000\" => rsp0 = \"entry+0xffffffffffffffff\" => 4 OutOfRange cpu.rsp0
rsp0 = \"0xffffffff84002000\" => rsp0 = \"entr\" => 6 NoSymbol cpu.rsp0
rsp0 = \"0xffffffff84002000\" => rsp0 = \"entry+\" => 3 WrongKind cpu.rsp0
idt = \"0xffffffff82000000\" => idt = \"entry+0x1000000\" => accepted
";

fn line(alloc: Global, fault: &ConfigFault) -> io::Result<String> {
    let (name, path) = match fault {
        ConfigFault::Syntax => ("1 Syntax", "-"),
        ConfigFault::Missing(path) => ("2 Missing", path.text()),
        ConfigFault::WrongKind(path) => ("3 WrongKind", path.text()),
        ConfigFault::OutOfRange(path) => ("4 OutOfRange", path.text()),
        ConfigFault::UnknownKey(path) => ("5 UnknownKey", path.text()),
        ConfigFault::NoSymbol(path) => ("6 NoSymbol", path.text()),
        ConfigFault::Regions(path) => ("7 Regions", path.text()),
        ConfigFault::GuardMissing(path) => ("8 GuardMissing", path.text()),
        ConfigFault::NoMemory => ("9 NoMemory", "-"),
    };
    Ok(format!(in alloc; "{name} {path}")?)
}

/// What the description gets.
fn answer(alloc: Global, text: &str, image: &Image) -> io::Result<String> {
    match read_config(alloc, text.as_bytes(), image) {
        Ok(_) => Ok(String::from_str(alloc, "accepted")?),
        Err(fault) => line(alloc, &fault),
    }
}

/// Compares what the description that each row makes gets; the failure is the first row that differs.
fn compare(alloc: Global, image: &Image, text: &str, rows: &'static str) -> Result<(), Fail> {
    for row in rows.lines() {
        let (old, rest) = row.split_once(" => ").ok_or("a row")?;
        let (new, due) = rest.split_once(" => ").ok_or("a row")?;
        let (front, back) = text.split_once(old).ok_or("the old text")?;
        let edited = format!(in alloc; "{front}{new}{back}")?;
        if answer(alloc, edited.as_str(), image)?.as_str() != due {
            Err(row)?;
        }
    }
    Ok(())
}

#[test]
fn edits_of_the_sample_get_the_answers_of_the_table(rt: HostRuntime) -> Result<(), Fail> {
    let alloc = rt.alloc();
    let (image, config) = sample(alloc, Sample::S1).expect(&rt, "memory");
    let image = read_image(alloc, image).expect(&rt, "the image");
    let text = std::str::from_utf8(&config)?;
    compare(alloc, &image, text, EDITS)?;
    let linked = read_image(alloc, file_named(alloc, "program")?).expect(&rt, "the image");
    compare(alloc, &linked, text, SYMBOLS)
}

#[test]
fn an_empty_description_lacks_its_version(rt: HostRuntime) -> Result<(), Fail> {
    let alloc = rt.alloc();
    let (image, _) = sample(alloc, Sample::S2).expect(&rt, "memory");
    let image = read_image(alloc, image).expect(&rt, "the image");
    match read_config(alloc, b"", &image) {
        Ok(_) => Err("accepted")?,
        Err(fault) => assert_eq!(rt; line(alloc, &fault)?.as_str(), "2 Missing version"),
    }
    Ok(())
}
