//! The rules on an ELF file's header and on the extent of its tables.

ghost use Rattle.std.specs.Prelude.{◌≡◌, ◌<◌, length, OnOk, IfOk, ◌≤◌};
ghost use Rattle.kc_image.specs.FirstFault.{magic_byte, magic, header, program_table, section_table, passes};

use crate::elf::{
    E_MACHINE, E_PHENTSIZE, E_PHNUM, E_SHENTSIZE, E_TYPE, EHDR_SIZE, EI_CLASS, EI_DATA, ELFCLASS64,
    ELFDATA2LSB, ELFMAG, EM_X86_64, ET_EXEC, FileHeader, PHDR_SIZE, PN_XNUM, SHDR_SIZE,
    read_file_header,
};
use crate::fault::{ImageFault, ImageKind, refuse_if};

/// Whether so many bytes from the offset on pass the file's end.
pub(crate) fn passes_end(file: &[u8], offset: u64, size: u64) -> bool
    ensures { result ≡ passes file.now offset size }
{
    let len = file.len() as u64;
    len < offset || len - offset < size
}

#[tactic(auto, unfolding(crate::specs::FirstFault::magic_byte))]
fn check_magic_byte(file: &[u8], i: usize) -> Result<(), ImageFault>
    requires { i < 4 }
    ensures { result ≡ magic_byte file.now i }
{
    if file.len() <= i {
        return Ok(());
    }
    refuse_if(file[i] != ELFMAG[i], ImageKind::BadMagic, i as u64)
}

#[tactic(auto, unfolding(crate::specs::FirstFault::magic))]
fn check_magic(file: &[u8]) -> Result<(), ImageFault>
    ensures { result ≡ magic file.now }
{
    check_magic_byte(file, 0)?;
    check_magic_byte(file, 1)?;
    check_magic_byte(file, 2)?;
    check_magic_byte(file, 3)
}

/// The header of a little-endian 64-bit program for x86-64, loaded at the addresses that it names.
#[tactic(auto, unfolding(crate::specs::FirstFault::header))]
pub(crate) fn check_header(file: &[u8]) -> Result<FileHeader, ImageFault>
    ensures { result ≡ header file.now }
{
    check_magic(file)?;
    let len = file.len() as u64;
    if len < EHDR_SIZE {
        return Err(ImageFault {
            kind: ImageKind::HeaderOut,
            at: len,
        });
    }
    let class = file[EI_CLASS as usize];
    let data = file[EI_DATA as usize];
    let header = read_file_header(file);
    refuse_if(class != ELFCLASS64, ImageKind::BadClass, EI_CLASS)?;
    refuse_if(data != ELFDATA2LSB, ImageKind::BadClass, EI_DATA)?;
    refuse_if(header.e_type != ET_EXEC, ImageKind::BadType, E_TYPE)?;
    refuse_if(
        header.e_machine != EM_X86_64,
        ImageKind::BadMachine,
        E_MACHINE,
    )?;
    Ok(header)
}

/// The table of program headers, where there is one, has entries of the ABI's size and lies in the
/// file.
#[tactic(auto, unfolding(crate::specs::FirstFault::program_table))]
pub(crate) fn check_program_table(file: &[u8], header: &FileHeader) -> Result<(), ImageFault>
    ensures { result ≡ program_table file.now header.now }
{
    if header.e_phnum == 0 {
        return Ok(());
    }
    refuse_if(
        u64::from(header.e_phentsize) != PHDR_SIZE,
        ImageKind::HeaderOut,
        E_PHENTSIZE,
    )?;
    refuse_if(header.e_phnum == PN_XNUM, ImageKind::HeaderOut, E_PHNUM)?;
    let size = PHDR_SIZE * u64::from(header.e_phnum);
    refuse_if(
        passes_end(file, header.e_phoff, size),
        ImageKind::HeaderOut,
        file.len() as u64,
    )
}

/// The same of the table of section headers.
#[tactic(auto, unfolding(crate::specs::FirstFault::section_table))]
pub(crate) fn check_section_table(file: &[u8], header: &FileHeader) -> Result<(), ImageFault>
    ensures { result ≡ section_table file.now header.now }
{
    if header.e_shnum == 0 {
        return Ok(());
    }
    refuse_if(
        u64::from(header.e_shentsize) != SHDR_SIZE,
        ImageKind::HeaderOut,
        E_SHENTSIZE,
    )?;
    let size = SHDR_SIZE * u64::from(header.e_shnum);
    refuse_if(
        passes_end(file, header.e_shoff, size),
        ImageKind::HeaderOut,
        file.len() as u64,
    )
}
