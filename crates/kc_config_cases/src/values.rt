//! What a description has at a path, as files of cases write it.

use kc_regions::{AfterIf, Config, CpuSetup, Gate, Handler, Region, Word};
use std::alloc::Global;
use std::io;

/// What the configuration has at a path.
pub(crate) fn value_at(alloc: Global, config: &Config, path: &str) -> io::Result<String> {
    let (table, rest) = path.split_once('.').unwrap_or((path, ""));
    let (index, key) = rest.split_once('.').unwrap_or((rest, ""));
    let at = index.parse::<usize>().unwrap_or(0);
    if index == "count" {
        return hex(alloc, count_of(config, table) as u64);
    }
    match table.as_bytes() {
        b"cpu" => cpu_value(alloc, &config.cpu, index, key),
        b"region" => match config.regions.list().get(at) {
            Some(region) => region_value(alloc, region, key),
            None => text(alloc, "none"),
        },
        b"gate" => match config.gates.get(at) {
            Some(gate) => gate_value(alloc, gate, key),
            None => text(alloc, "none"),
        },
        b"handler" => match config.handlers.get(at) {
            Some(handler) => handler_value(alloc, handler, key),
            None => text(alloc, "none"),
        },
        _ => match config.words.get(at) {
            Some(word) => word_value(alloc, word, key),
            None => text(alloc, "none"),
        },
    }
}

fn count_of(config: &Config, table: &str) -> usize {
    match table.as_bytes() {
        b"region" => config.regions.list().len(),
        b"gate" => config.gates.len(),
        b"handler" => config.handlers.len(),
        _ => config.words.len(),
    }
}

fn text(alloc: Global, word: &str) -> io::Result<String> {
    Ok(String::from_str(alloc, word)?)
}

fn hex(alloc: Global, n: u64) -> io::Result<String> {
    Ok(format!(in alloc; "0x{n:x}")?)
}

fn flag(alloc: Global, set: bool) -> io::Result<String> {
    text(alloc, if set { "true" } else { "false" })
}

fn cpu_value(alloc: Global, cpu: &CpuSetup, key: &str, index: &str) -> io::Result<String> {
    match key.as_bytes() {
        b"kernel_gs" => hex(alloc, cpu.kernel_gs),
        b"kernel_cr3" => hex(alloc, cpu.kernel_cr3),
        b"user_cr3" => hex(alloc, cpu.user_cr3),
        b"idt" => hex(alloc, cpu.idt),
        b"gdt" => hex(alloc, cpu.gdt),
        b"tss" => hex(alloc, cpu.tss),
        b"syscall" => hex(alloc, cpu.syscall),
        b"fmask" => hex(alloc, cpu.fmask),
        b"star_kernel" => hex(alloc, u64::from(cpu.star_kernel)),
        b"star_user" => hex(alloc, u64::from(cpu.star_user)),
        b"user_cs32" => match cpu.user_cs32 {
            Some(cs) => hex(alloc, u64::from(cs)),
            None => text(alloc, "none"),
        },
        b"user_gs_writes" => flag(alloc, cpu.user_gs_writes),
        b"rsp0" => hex(alloc, cpu.rsp0),
        _ => match cpu.ist.get(index.parse::<usize>().unwrap_or(9)) {
            Some(stack) => hex(alloc, *stack),
            None => text(alloc, "none"),
        },
    }
}

fn region_value(alloc: Global, region: &Region, key: &str) -> io::Result<String> {
    match key.as_bytes() {
        b"name" => text(alloc, region.name.as_str()),
        b"at" => hex(alloc, region.span.from),
        b"size" => hex(alloc, region.span.to.saturating_sub(region.span.from)),
        b"user_map" => flag(alloc, region.user_map),
        b"write" => flag(alloc, region.write),
        b"exec" => flag(alloc, region.exec),
        b"may_fault" => flag(alloc, region.may_fault),
        b"quiet" => flag(alloc, region.quiet),
        _ => flag(alloc, region.marked),
    }
}

fn gate_value(alloc: Global, gate: &Gate, key: &str) -> io::Result<String> {
    match key.as_bytes() {
        b"vector" => hex(alloc, u64::from(gate.vector)),
        b"entry" => hex(alloc, gate.entry),
        b"ist" => hex(alloc, u64::from(gate.ist)),
        b"trap" => flag(alloc, gate.trap),
        _ => flag(alloc, gate.user),
    }
}

fn handler_value(alloc: Global, handler: &Handler, key: &str) -> io::Result<String> {
    match key.as_bytes() {
        b"entry" => hex(alloc, handler.entry),
        b"stack" => hex(alloc, u64::from(handler.stack)),
        b"irq" => flag(alloc, handler.irq),
        b"debug" => flag(alloc, handler.debug),
        b"fault" => flag(alloc, handler.fault),
        b"after_if" => text(alloc, after_if_word(handler.after_if)),
        _ => flag(alloc, handler.returns),
    }
}

fn after_if_word(after_if: AfterIf) -> &'static str {
    match after_if {
        AfterIf::Keep => "keep",
        AfterIf::On => "on",
        AfterIf::Off => "off",
        AfterIf::Any => "any",
    }
}

fn word_value(alloc: Global, word: &Word, key: &str) -> io::Result<String> {
    match key.as_bytes() {
        b"at" => hex(alloc, word.at),
        _ => hex(alloc, word.value),
    }
}
