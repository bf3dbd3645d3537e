//! The headers of ELF-64 files: offsets and constants of the System V ABI, "ELF Header", "Sections",
//! "Symbol Table" and "Program Header".

ghost use Rattle.std.specs.Prelude.{◌≡◌, ◌≤◌, ◌+◌, length};
ghost use Rattle.kc_image.specs.Field.{half, word, xword};
ghost use Rattle.kc_image.specs.Elf.{file_header, program_header, section_header, symbol_entry};

use byteorder::{ByteOrder, LittleEndian};

// "ELF Header": Elf64_Ehdr and e_ident.
pub(crate) const ELFMAG: [u8; 4] = [0x7F, b'E', b'L', b'F'];

pub(crate) const EI_CLASS: u64 = 4;

pub(crate) const ELFCLASS64: u8 = 2;

pub(crate) const EI_DATA: u64 = 5;

pub(crate) const ELFDATA2LSB: u8 = 1;

pub(crate) const E_TYPE: u64 = 16;

pub(crate) const ET_EXEC: u16 = 2;

pub(crate) const E_MACHINE: u64 = 18;

pub(crate) const EM_X86_64: u16 = 62;

pub(crate) const E_PHOFF: u64 = 32;

pub(crate) const E_SHOFF: u64 = 40;

pub(crate) const E_PHENTSIZE: u64 = 54;

pub(crate) const E_PHNUM: u64 = 56;

pub(crate) const E_SHENTSIZE: u64 = 58;

pub(crate) const E_SHNUM: u64 = 60;
/// The size of an Elf64_Ehdr.
pub(crate) const EHDR_SIZE: u64 = 64;
/// The value of e_phnum that says that the number stands elsewhere.
pub(crate) const PN_XNUM: u16 = 65_535;

// "Program Header": Elf64_Phdr.
pub(crate) const P_TYPE: u64 = 0;

pub(crate) const PT_LOAD: u32 = 1;

pub(crate) const P_OFFSET: u64 = 8;

pub(crate) const P_VADDR: u64 = 16;

pub(crate) const P_FILESZ: u64 = 32;

pub(crate) const P_MEMSZ: u64 = 40;
/// The size of an Elf64_Phdr.
pub(crate) const PHDR_SIZE: u64 = 56;

// "Sections": Elf64_Shdr.
pub(crate) const SH_TYPE: u64 = 4;

pub(crate) const SHT_SYMTAB: u32 = 2;

pub(crate) const SHT_STRTAB: u32 = 3;

pub(crate) const SH_OFFSET: u64 = 24;

pub(crate) const SH_SIZE: u64 = 32;

pub(crate) const SH_LINK: u64 = 40;
/// The size of an Elf64_Shdr.
pub(crate) const SHDR_SIZE: u64 = 64;

// "Symbol Table": Elf64_Sym.
pub(crate) const ST_NAME: u64 = 0;

pub(crate) const ST_SHNDX: u64 = 6;

pub(crate) const SHN_UNDEF: u16 = 0;

pub(crate) const ST_VALUE: u64 = 8;
/// The size of an Elf64_Sym.
pub(crate) const SYM_SIZE: u64 = 24;

/// The fields of the file's header that this project reads.
#[derive(Clone, Copy)]
pub(crate) struct FileHeader {
    pub(crate) e_type: u16,
    pub(crate) e_machine: u16,
    pub(crate) e_phoff: u64,
    pub(crate) e_shoff: u64,
    pub(crate) e_phentsize: u16,
    pub(crate) e_phnum: u16,
    pub(crate) e_shentsize: u16,
    pub(crate) e_shnum: u16,
}

/// The fields of a program header that this project reads.
#[derive(Clone, Copy)]
pub(crate) struct ProgramHeader {
    pub(crate) p_type: u32,
    pub(crate) p_offset: u64,
    pub(crate) p_vaddr: u64,
    pub(crate) p_filesz: u64,
    pub(crate) p_memsz: u64,
}

/// The fields of a section header that this project reads.
#[derive(Clone, Copy)]
pub(crate) struct SectionHeader {
    pub(crate) sh_type: u32,
    pub(crate) sh_offset: u64,
    pub(crate) sh_size: u64,
    pub(crate) sh_link: u32,
}

/// The fields of a symbol table's entry that this project reads.
#[derive(Clone, Copy)]
pub(crate) struct SymbolEntry {
    pub(crate) st_name: u32,
    pub(crate) st_shndx: u16,
    pub(crate) st_value: u64,
}

#[tactic(auto, using(std::proofs::lemmas::List::take_rest), unfolding(crate::specs::Field::half))]
fn read_half(file: &[u8], at: u64) -> u16
    requires { at + 2 ≤ length file.now }
    ensures { result ≡ half file.now at }
{
    LittleEndian::read_u16(&file[at as usize..])
}

#[tactic(auto, using(std::proofs::lemmas::List::take_rest), unfolding(crate::specs::Field::word))]
fn read_word(file: &[u8], at: u64) -> u32
    requires { at + 4 ≤ length file.now }
    ensures { result ≡ word file.now at }
{
    LittleEndian::read_u32(&file[at as usize..])
}

#[tactic(auto, using(std::proofs::lemmas::List::take_rest), unfolding(crate::specs::Field::xword))]
pub(crate) fn read_xword(file: &[u8], at: u64) -> u64
    requires { at + 8 ≤ length file.now }
    ensures { result ≡ xword file.now at }
{
    LittleEndian::read_u64(&file[at as usize..])
}

#[tactic(auto, unfolding(crate::specs::Elf::file_header))]
pub(crate) fn read_file_header(file: &[u8]) -> FileHeader
    requires { EHDR_SIZE ≤ length file.now }
    ensures { result ≡ file_header file.now }
{
    FileHeader {
        e_type: read_half(file, E_TYPE),
        e_machine: read_half(file, E_MACHINE),
        e_phoff: read_xword(file, E_PHOFF),
        e_shoff: read_xword(file, E_SHOFF),
        e_phentsize: read_half(file, E_PHENTSIZE),
        e_phnum: read_half(file, E_PHNUM),
        e_shentsize: read_half(file, E_SHENTSIZE),
        e_shnum: read_half(file, E_SHNUM),
    }
}

#[tactic(auto, unfolding(crate::specs::Elf::program_header))]
pub(crate) fn read_program_header(file: &[u8], at: u64) -> ProgramHeader
    requires { at + PHDR_SIZE ≤ length file.now }
    ensures { result ≡ program_header file.now at }
{
    ProgramHeader {
        p_type: read_word(file, at + P_TYPE),
        p_offset: read_xword(file, at + P_OFFSET),
        p_vaddr: read_xword(file, at + P_VADDR),
        p_filesz: read_xword(file, at + P_FILESZ),
        p_memsz: read_xword(file, at + P_MEMSZ),
    }
}

#[tactic(auto, unfolding(crate::specs::Elf::section_header))]
pub(crate) fn read_section_header(file: &[u8], at: u64) -> SectionHeader
    requires { at + SHDR_SIZE ≤ length file.now }
    ensures { result ≡ section_header file.now at }
{
    SectionHeader {
        sh_type: read_word(file, at + SH_TYPE),
        sh_offset: read_xword(file, at + SH_OFFSET),
        sh_size: read_xword(file, at + SH_SIZE),
        sh_link: read_word(file, at + SH_LINK),
    }
}

#[tactic(auto, unfolding(crate::specs::Elf::symbol_entry))]
pub(crate) fn read_symbol_entry(file: &[u8], at: u64) -> SymbolEntry
    requires { at + SYM_SIZE ≤ length file.now }
    ensures { result ≡ symbol_entry file.now at }
{
    SymbolEntry {
        st_name: read_word(file, at + ST_NAME),
        st_shndx: read_half(file, at + ST_SHNDX),
        st_value: read_xword(file, at + ST_VALUE),
    }
}
