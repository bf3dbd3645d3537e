//! The table `cpu`.

ghost use Rattle.std.specs.Prelude.{◌≡◌, ◌+◌, ◌^◌, ◌<◌, ◌≤◌, IfOk, nat_le, nat_lt, option_map, map, length, codes, MatchResult, All, IfSome, true, ◌%◌, Some, None, if◌then◌else◌};
ghost use Rattle.std.specs.Int.{bit_at};
ghost use Rattle.std.specs.List.{list_all};
ghost use Rattle.kc_config.specs.Addresses.{meant, is_address};
ghost use Rattle.kc_config.specs.Faults.{Reads, no_memory};
ghost use Rattle.kc_config.specs.Keys.{every, address_in, number_in, or_default};
ghost use Rattle.kc_config.specs.Tables.{cpu, ist_stacks, is_fmask, is_star_kernel, is_star_user, is_user_cs32, some};
ghost use Rattle.kc_config.specs.Seen.{seen, spelled, sum};
ghost use Rattle.kc_regions.specs.Ranges.{IsCpuInRange, IsUserSelector};

use crate::address::{Spelling, Sum, find_address};
use crate::fault::{ConfigFault, no_symbol};
use crate::keys::Reader;
use kc_image::Image;
use kc_regions::CpuSetup;
use std::alloc::Global;

/// The least canonical address of the kernel's half.
const KERNEL_HALF: u64 = 0xffff_8000_0000_0000;

/// The least address with bit 63 set.
const UPPER_HALF: u64 = 0x8000_0000_0000_0000;

impl<'a> Reader<'a> {
    /// An address that is at least the least one.
    #[tactic(auto, unfolding(crate::specs::Keys::address_in))]
    fn address_from(&self, key: &str, least: u64) -> Result<u64, ConfigFault>
        ensures read { Reads (λ a. a) result (address_in (nat_le least) (seen self.now) key.now) }
        ensures in_range { IfOk result (λ a. (least ≤ a) × (a < 2 ^ 64)) }
    {
        let address = self.address(key)?;
        self.in_range(key, least <= address)?;
        Ok(address)
    }

    /// An address that is below the bound.
    #[tactic(auto, unfolding(crate::specs::Keys::address_in))]
    fn address_below(&self, key: &str, bound: u64) -> Result<u64, ConfigFault>
        ensures read { Reads (λ a. a) result (address_in (λ a. nat_lt a bound) (seen self.now) key.now) }
        ensures in_range { IfOk result (λ a. a < bound) }
    {
        let address = self.address(key)?;
        self.in_range(key, address < bound)?;
        Ok(address)
    }
}

/// The flags that SYSCALL clears.
#[tactic(auto, unfolding(crate::specs::Keys::address_in))]
fn read_fmask(table: &Reader<'_>) -> Result<u64, ConfigFault>
    ensures read { Reads (λ n. n) result (address_in is_fmask (seen table.now) (codes "fmask")) }
    ensures in_range { IfOk result (λ n. (n < 2 ^ 32) × (bit_at n 1 ≡ 0)) }
{
    let fmask = table.address("fmask")?;
    if fmask <= 0xffff_ffff && (fmask >> 1) & 1 == 0 {
        Ok(fmask)
    } else {
        Err(table.out_of_range("fmask"))
    }
}

/// Whether SYSCALL may take CS and SS from this selector.
fn is_star_kernel(n: u64) -> bool
    ensures test { result ≡ is_star_kernel n }
    ensures range { result ≡ true → (8 ≤ n) × (n ≤ 65520) × (n % 8 ≡ 0) }
{
    8 <= n && n <= 65_520 && n % 8 == 0
}

/// The selector from which SYSCALL takes CS and SS.
#[tactic(auto, unfolding(crate::specs::Keys::number_in))]
fn read_star_kernel(table: &Reader<'_>) -> Result<u16, ConfigFault>
    ensures read { Reads (λ n. n) result (number_in is_star_kernel (seen table.now) (codes "star_kernel")) }
    ensures in_range { IfOk result (λ n. (8 ≤ n) × (n ≤ 65520) × (n % 8 ≡ 0)) }
{
    let star = table.number("star_kernel")?;
    if is_star_kernel(star) {
        Ok(star as u16)
    } else {
        Err(table.out_of_range("star_kernel"))
    }
}

/// The selector from which SYSRET takes CS and SS.
#[tactic(auto, unfolding(crate::specs::Keys::number_in))]
fn read_star_user(table: &Reader<'_>) -> Result<u16, ConfigFault>
    ensures read { Reads (λ n. n) result (number_in is_star_user (seen table.now) (codes "star_user")) }
    ensures in_range { IfOk result (λ n. (8 ≤ n) × (n ≤ 65499) × (bit_at n 2 ≡ 0)) }
{
    let star = table.number("star_user")?;
    if (star >> 2) & 1 == 0 && 8 <= star && star <= 65_499 {
        Ok(star as u16)
    } else {
        Err(table.out_of_range("star_user"))
    }
}

/// The CS of 32-bit user code.
#[tactic(auto, unfolding(crate::specs::Keys::number_in))]
fn read_user_cs32(table: &Reader<'_>) -> Result<u16, ConfigFault>
    ensures read { Reads (λ n. n) result (number_in is_user_cs32 (seen table.now) (codes "user_cs32")) }
    ensures in_range { IfOk result IsUserSelector }
{
    let cs = table.number("user_cs32")?;
    let user = cs & 1 == 1 && (cs >> 1) & 1 == 1 && (cs >> 2) & 1 == 0;
    if user && 11 <= cs && cs <= 65_535 {
        Ok(cs as u16)
    } else {
        Err(table.out_of_range("user_cs32"))
    }
}

/// The CS of 32-bit user code, where there is one.
fn read_optional_cs32(table: &Reader<'_>) -> Result<Option<u16>, ConfigFault>
    ensures read { Reads (λ n. n) result (or_default (seen table.now) (codes "user_cs32") None
        (some (number_in is_user_cs32 (seen table.now) (codes "user_cs32")))) }
    ensures in_range { IfOk result (λ n. IfSome n IsUserSelector) }
{
    if table.has("user_cs32") {
        Ok(Some(read_user_cs32(table)?))
    } else {
        Ok(None)
    }
}

/// The address that each of these means, where the image has each name.
fn find_each(
    alloc: Global,
    image: &Image,
    forms: &[Spelling<'_>],
) -> Result<Option<Vec<Sum>>, ConfigFault>
    ensures { MatchResult result (λ r. option_map (λ v. map sum v.items) r ≡ every (meant image.now.symbols)
        (map spelled forms.now)) (λ e. e ≡ no_memory) }
{
    let mut sums = Vec::new(alloc);
    for form in forms {
        match find_address(image, form) {
            Some(sum) => sums.push(sum)?,
            None => return Ok(None),
        }
    }
    Ok(Some(sums))
}

/// Seven addresses, where each sum is below 2^64.
fn add_seven(sums: &[Sum]) -> Option<[u64; 7]>
    requires { length sums.now ≡ 7 }
    ensures read { result ≡ (if list_all is_address (map sum sums.now) then Some (map sum sums.now) else None) }
    ensures in_range { IfSome result (λ a. (length a ≡ 7) × All (λ n. n < 2 ^ 64) a) }
{
    let [a, b, c, d, e, f, g] = sums else {
        return None;
    };
    Some([
        add(a)?,
        add(b)?,
        add(c)?,
        add(d)?,
        add(e)?,
        add(f)?,
        add(g)?,
    ])
}

fn add(pair: &Sum) -> Option<u64>
    ensures sum { result ≡ (if is_address (sum pair.now) then Some (sum pair.now) else None) }
    ensures in_range { IfSome result (λ a. a < 2 ^ 64) }
{
    pair.base.checked_add(pair.added)
}

/// The stack pointers IST1 to IST7.
#[tactic(auto, unfolding(crate::specs::Tables::ist_stacks))]
fn read_ist(table: &Reader<'_>) -> Result<[u64; 7], ConfigFault>
    ensures read { Reads (λ a. a) result (ist_stacks (seen table.now)) }
    ensures in_range { IfOk result (λ a. (length a ≡ 7) × All (λ n. n < 2 ^ 64) a) }
{
    let forms = table.forms("ist")?;
    if forms.len() != 7 {
        return Err(table.wrong_kind("ist"));
    }
    let Some(sums) = find_each(table.alloc, table.image, &forms)? else {
        return Err(no_symbol(table.alloc, table.place, "ist"));
    };
    match add_seven(&sums) {
        Some(ist) => Ok(ist),
        None => Err(table.out_of_range("ist")),
    }
}

/// The processor's setup.
#[tactic(auto, unfolding(crate::specs::Tables::cpu))]
pub(crate) fn read_cpu(table: &Reader<'_>) -> Result<CpuSetup, ConfigFault>
    ensures read { Reads (λ c. c) result (cpu (seen table.now)) }
    ensures in_range { IfOk result IsCpuInRange }
{
    let kernel_gs = table.address_from("kernel_gs", KERNEL_HALF)?;
    let kernel_cr3 = table.address_below("kernel_cr3", UPPER_HALF)?;
    let user_cr3 = table.address_below("user_cr3", UPPER_HALF)?;
    let idt = table.address_from("idt", UPPER_HALF)?;
    let gdt = table.address_from("gdt", UPPER_HALF)?;
    let tss = table.address_from("tss", UPPER_HALF)?;
    let syscall = table.address_from("syscall", UPPER_HALF)?;
    let fmask = read_fmask(table)?;
    let star_kernel = read_star_kernel(table)?;
    let star_user = read_star_user(table)?;
    let user_cs32 = read_optional_cs32(table)?;
    let user_gs_writes = table.boolean("user_gs_writes")?;
    let rsp0 = table.address("rsp0")?;
    let ist = read_ist(table)?;
    table.only_keys()?;
    Ok(CpuSetup {
        kernel_gs,
        kernel_cr3,
        user_cr3,
        idt,
        gdt,
        tss,
        syscall,
        fmask,
        star_kernel,
        star_user,
        user_cs32,
        user_gs_writes,
        rsp0,
        ist,
    })
}
