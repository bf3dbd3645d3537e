//! Image files and what is read from them: a case a line. The files were laid out by the System V ABI, and the answers
//! were compared with an independent reader in another language, for which each layout constant, moved by up to eight,
//! changes the answer of some case.

use kc_image::{Image, read_image};
use kc_tables::{Case, case_of};
use std::alloc::Global;
use std::test::Fail;

/// Two segments, five symbols and their strings. The program headers are at 0x40 and 0x78, the section headers of
/// symbols and strings at 0xf0 and 0x130, the segments' bytes at 0x170 and 0x175, the symbols from 0x177 on, each of 24
/// bytes, and the strings at 0x1ef. Fields that mean nothing here aren't 0.
const PROGRAM: &str = "\
7f 45 4c 46 02 01 01 00 00 5a 5a 5a 5a 5a 5a 5a 02 00 3e 00 01 01 01 01 00 00 00 81 ff ff ff ff
40 00 00 00 00 00 00 00 b0 00 00 00 00 00 00 00 0e 0d 0c 0b 40 00 38 00 02 00 40 00 03 00 16 17
01 00 00 00 55 00 00 00 70 01 00 00 00 00 00 00 00 00 00 81 ff ff ff ff 68 67 66 65 64 63 62 61
05 00 00 00 00 00 00 00 08 00 00 00 00 00 00 00 78 77 76 75 74 73 72 71 01 00 00 00 55 00 00 00
75 01 00 00 00 00 00 00 08 00 00 81 ff ff ff ff 68 67 66 65 64 63 62 61 02 00 00 00 00 00 00 00
02 00 00 00 00 00 00 00 78 77 76 75 74 73 72 71 24 23 22 21 00 00 00 00 38 37 36 35 34 33 32 31
48 47 46 45 44 43 42 41 00 00 00 00 00 00 00 00 00 00 00 00 00 00 00 00 00 00 00 00 54 53 52 51
08 00 00 00 00 00 00 00 18 00 00 00 00 00 00 00 24 23 22 21 02 00 00 00 38 37 36 35 34 33 32 31
48 47 46 45 44 43 42 41 77 01 00 00 00 00 00 00 78 00 00 00 00 00 00 00 02 00 00 00 54 53 52 51
08 00 00 00 00 00 00 00 18 00 00 00 00 00 00 00 24 23 22 21 03 00 00 00 38 37 36 35 34 33 32 31
48 47 46 45 44 43 42 41 ef 01 00 00 00 00 00 00 0f 00 00 00 00 00 00 00 00 00 00 00 54 53 52 51
08 00 00 00 00 00 00 00 18 00 00 00 00 00 00 00 90 91 92 93 94 c3 cc 00 00 00 00 12 34 00 00 00
00 00 00 00 00 00 00 88 87 86 85 84 83 82 81 01 00 00 00 12 34 01 00 00 00 00 81 ff ff ff ff 88
87 86 85 84 83 82 81 01 00 00 00 12 34 01 00 01 00 00 81 ff ff ff ff 88 87 86 85 84 83 82 81 07
00 00 00 12 34 00 00 02 00 00 81 ff ff ff ff 88 87 86 85 84 83 82 81 00 00 00 00 12 34 01 00 03
00 00 81 ff ff ff ff 88 87 86 85 84 83 82 81 00 65 6e 74 72 79 00 6f 75 74 73 69 64 65 00";

/// One segment of four bytes at the end of the file.
const SMALL: &str = "\
7f 45 4c 46 02 01 01 00 00 5a 5a 5a 5a 5a 5a 5a 02 00 3e 00 01 01 01 01 00 00 00 81 ff ff ff ff
40 00 00 00 00 00 00 00 00 00 00 00 00 00 00 00 0e 0d 0c 0b 40 00 38 00 01 00 40 00 00 00 16 17
01 00 00 00 55 00 00 00 78 00 00 00 00 00 00 00 00 00 00 81 ff ff ff ff 68 67 66 65 64 63 62 61
04 00 00 00 00 00 00 00 04 00 00 00 00 00 00 00 78 77 76 75 74 73 72 71 0f 01 f8 c3";

/// A header without tables.
const HEADER: &str = "\
7f 45 4c 46 02 01 01 00 00 5a 5a 5a 5a 5a 5a 5a 02 00 3e 00 01 01 01 01 00 00 00 81 ff ff ff ff
00 00 00 00 00 00 00 00 00 00 00 00 00 00 00 00 0e 0d 0c 0b 40 00 38 00 00 00 40 00 00 00 16 17";

/// Two symbols whose names have 129 and 128 bytes.
const NAMES: &str = "\
7f 45 4c 46 02 01 01 00 00 5a 5a 5a 5a 5a 5a 5a 02 00 3e 00 01 01 01 01 00 00 00 81 ff ff ff ff
40 00 00 00 00 00 00 00 40 00 00 00 00 00 00 00 0e 0d 0c 0b 40 00 38 00 00 00 40 00 03 00 16 17
24 23 22 21 00 00 00 00 38 37 36 35 34 33 32 31 48 47 46 45 44 43 42 41 00 00 00 00 00 00 00 00
00 00 00 00 00 00 00 00 00 00 00 00 54 53 52 51 08 00 00 00 00 00 00 00 18 00 00 00 00 00 00 00
24 23 22 21 02 00 00 00 38 37 36 35 34 33 32 31 48 47 46 45 44 43 42 41 00 01 00 00 00 00 00 00
30 00 00 00 00 00 00 00 02 00 00 00 54 53 52 51 08 00 00 00 00 00 00 00 18 00 00 00 00 00 00 00
24 23 22 21 03 00 00 00 38 37 36 35 34 33 32 31 48 47 46 45 44 43 42 41 30 01 00 00 00 00 00 00
83 00 00 00 00 00 00 00 00 00 00 00 54 53 52 51 08 00 00 00 00 00 00 00 18 00 00 00 00 00 00 00
01 00 00 00 12 34 01 00 07 00 00 00 00 00 00 00 88 87 86 85 84 83 82 81 02 00 00 00 12 34 01 00
08 00 00 00 00 00 00 00 88 87 86 85 84 83 82 81 00 61 61 61 61 61 61 61 61 61 61 61 61 61 61 61
61 61 61 61 61 61 61 61 61 61 61 61 61 61 61 61 61 61 61 61 61 61 61 61 61 61 61 61 61 61 61 61
61 61 61 61 61 61 61 61 61 61 61 61 61 61 61 61 61 61 61 61 61 61 61 61 61 61 61 61 61 61 61 61
61 61 61 61 61 61 61 61 61 61 61 61 61 61 61 61 61 61 61 61 61 61 61 61 61 61 61 61 61 61 61 61
61 61 61 61 61 61 61 61 61 61 61 61 61 61 61 61 61 61 00";

/// Nine symbol tables over the same three symbols at 0x340, and two string tables: eight have the first one, and the
/// last one has the second.
const TABLES: &str = "\
7f 45 4c 46 02 01 01 00 00 5a 5a 5a 5a 5a 5a 5a 02 00 3e 00 01 01 01 01 00 00 00 81 ff ff ff ff
40 00 00 00 00 00 00 00 40 00 00 00 00 00 00 00 0e 0d 0c 0b 40 00 38 00 00 00 40 00 0c 00 16 17
24 23 22 21 00 00 00 00 38 37 36 35 34 33 32 31 48 47 46 45 44 43 42 41 00 00 00 00 00 00 00 00
00 00 00 00 00 00 00 00 00 00 00 00 54 53 52 51 08 00 00 00 00 00 00 00 18 00 00 00 00 00 00 00
24 23 22 21 02 00 00 00 38 37 36 35 34 33 32 31 48 47 46 45 44 43 42 41 40 03 00 00 00 00 00 00
48 00 00 00 00 00 00 00 0a 00 00 00 54 53 52 51 08 00 00 00 00 00 00 00 18 00 00 00 00 00 00 00
24 23 22 21 02 00 00 00 38 37 36 35 34 33 32 31 48 47 46 45 44 43 42 41 40 03 00 00 00 00 00 00
48 00 00 00 00 00 00 00 0a 00 00 00 54 53 52 51 08 00 00 00 00 00 00 00 18 00 00 00 00 00 00 00
24 23 22 21 02 00 00 00 38 37 36 35 34 33 32 31 48 47 46 45 44 43 42 41 40 03 00 00 00 00 00 00
48 00 00 00 00 00 00 00 0a 00 00 00 54 53 52 51 08 00 00 00 00 00 00 00 18 00 00 00 00 00 00 00
24 23 22 21 02 00 00 00 38 37 36 35 34 33 32 31 48 47 46 45 44 43 42 41 40 03 00 00 00 00 00 00
48 00 00 00 00 00 00 00 0a 00 00 00 54 53 52 51 08 00 00 00 00 00 00 00 18 00 00 00 00 00 00 00
24 23 22 21 02 00 00 00 38 37 36 35 34 33 32 31 48 47 46 45 44 43 42 41 40 03 00 00 00 00 00 00
48 00 00 00 00 00 00 00 0a 00 00 00 54 53 52 51 08 00 00 00 00 00 00 00 18 00 00 00 00 00 00 00
24 23 22 21 02 00 00 00 38 37 36 35 34 33 32 31 48 47 46 45 44 43 42 41 40 03 00 00 00 00 00 00
48 00 00 00 00 00 00 00 0a 00 00 00 54 53 52 51 08 00 00 00 00 00 00 00 18 00 00 00 00 00 00 00
24 23 22 21 02 00 00 00 38 37 36 35 34 33 32 31 48 47 46 45 44 43 42 41 40 03 00 00 00 00 00 00
48 00 00 00 00 00 00 00 0a 00 00 00 54 53 52 51 08 00 00 00 00 00 00 00 18 00 00 00 00 00 00 00
24 23 22 21 02 00 00 00 38 37 36 35 34 33 32 31 48 47 46 45 44 43 42 41 40 03 00 00 00 00 00 00
48 00 00 00 00 00 00 00 0a 00 00 00 54 53 52 51 08 00 00 00 00 00 00 00 18 00 00 00 00 00 00 00
24 23 22 21 02 00 00 00 38 37 36 35 34 33 32 31 48 47 46 45 44 43 42 41 40 03 00 00 00 00 00 00
48 00 00 00 00 00 00 00 0b 00 00 00 54 53 52 51 08 00 00 00 00 00 00 00 18 00 00 00 00 00 00 00
24 23 22 21 03 00 00 00 38 37 36 35 34 33 32 31 48 47 46 45 44 43 42 41 88 03 00 00 00 00 00 00
0f 00 00 00 00 00 00 00 00 00 00 00 54 53 52 51 08 00 00 00 00 00 00 00 18 00 00 00 00 00 00 00
24 23 22 21 03 00 00 00 38 37 36 35 34 33 32 31 48 47 46 45 44 43 42 41 97 03 00 00 00 00 00 00
0f 00 00 00 00 00 00 00 00 00 00 00 54 53 52 51 08 00 00 00 00 00 00 00 18 00 00 00 00 00 00 00
01 00 00 00 12 34 01 00 10 00 00 00 00 00 00 00 88 87 86 85 84 83 82 81 01 00 00 00 12 34 01 00
11 00 00 00 00 00 00 00 88 87 86 85 84 83 82 81 07 00 00 00 12 34 02 00 12 00 00 00 00 00 00 00
88 87 86 85 84 83 82 81 00 65 6e 74 72 79 00 6f 75 74 73 69 64 65 00 00 6c 65 61 76 65 00 69 6e
73 69 64 65 21 00";

/// `nop` and `swapgs` at 0xffffffff81000000.
const RAW: &str = "\
45 4e 54 52 59 52 41 57 00 00 00 81 ff ff ff ff 90 0f 01 f8";

/// A file, the length that it is cut to, an offset and the bytes put there, what is asked, and the answer.
const CASES: &str = "\
# The program's bytes, and the zeros after the five that its first segment has in the file.
program | - | 0 | - | fault | none
program | - | 0 | - | segments | 2
program | - | 0 | - | symbols | 2
program | - | 0 | - | byte ffffffff80ffffff | none
program | - | 0 | - | byte ffffffff81000000 | 90
program | - | 0 | - | byte ffffffff81000004 | 94
program | - | 0 | - | byte ffffffff81000005 | 00
program | - | 0 | - | byte ffffffff81000007 | 00
program | - | 0 | - | byte ffffffff81000008 | c3
program | - | 0 | - | byte ffffffff81000009 | cc
program | - | 0 | - | byte ffffffff8100000a | none
program | - | 0 | - | byte 0 | none
program | - | 0 | - | byte ffffffffffffffff | none
program | - | 0 | - | run ffffffff80ffffff | -
program | - | 0 | - | run ffffffff81000003 | 93 94 00 00 00 c3 cc
# The first symbol of a name; names of section 0 and empty names aren't kept.
program | - | 0 | - | symbol entry | ffffffff81000000
program | - | 0 | - | symbol outside | none
program | - | 0 | - | symbol entr | none
program | - | 0 | - | symbol ntry | none
# The second symbol's name, section and address.
program | - | 18f | 02 | symbol ntry | ffffffff81000000
program | - | 195 | 00 00 | symbol entry | ffffffff81000001
program | - | 195 | 00 01 | symbol entry | ffffffff81000000
program | - | 197 | 01 02 03 04 05 06 07 08 | symbol entry | 807060504030201
# The header, field by field.
program | - | 0 | 7e | fault | 1 BadMagic at 0
program | - | 1 | 46 | fault | 1 BadMagic at 1
program | - | 2 | 4d | fault | 1 BadMagic at 2
program | - | 3 | 47 | fault | 1 BadMagic at 3
program | - | 4 | 01 | fault | 2 BadClass at 4
program | - | 5 | 02 | fault | 2 BadClass at 5
program | - | 6 | 02 02 | fault | none
program | - | 10 | 03 | fault | 3 BadType at 10
program | - | 11 | 01 | fault | 3 BadType at 10
program | - | 12 | 03 | fault | 4 BadMachine at 12
program | - | 13 | 01 | fault | 4 BadMachine at 12
program | - | 14 | 02 02 02 02 | fault | none
program | - | 20 | ff ff ff ff ff ff ff ff | fault | 5 HeaderOut at 1fe
program | - | 20 | 8f 01 | fault | 5 HeaderOut at 1fe
program | - | 28 | ff ff ff ff ff ff ff ff | fault | 5 HeaderOut at 1fe
program | - | 28 | 3f 01 | fault | 5 HeaderOut at 1fe
program | - | 36 | 37 | fault | 5 HeaderOut at 36
program | - | 36 | 39 | fault | 5 HeaderOut at 36
program | - | 36 | 37 00 00 00 | fault | none
program | - | 38 | ff ff | fault | 5 HeaderOut at 38
program | - | 38 | fe ff | fault | 5 HeaderOut at 1fe
program | - | 38 | 01 | run ffffffff81000008 | -
program | - | 3a | 3f | fault | 5 HeaderOut at 3a
program | - | 3a | 41 | fault | 5 HeaderOut at 3a
program | - | 3a | 3f 00 00 00 | fault | none
program | - | 3c | 01 | symbol entry | none
program | - | 3c | 02 | fault | 8 SymbolOut at f0
program | - | 3c | 00 01 | fault | 5 HeaderOut at 1fe
# The first and the second program header.
program | - | 78 | 06 | fault | none
program | - | 78 | 06 | run ffffffff81000008 | -
program | - | 40 | 02 | run ffffffff81000000 | -
program | - | 80 | ff ff ff ff ff ff ff ff | fault | 6 SegmentOut at 78
program | - | 80 | fd 01 | fault | 6 SegmentOut at 78
program | - | 80 | fc 01 | fault | none
program | - | 80 | 74 01 | run ffffffff81000008 | 94 c3
program | - | 88 | ff ff ff ff ff ff ff ff | fault | 6 SegmentOut at 78
program | - | 88 | 07 | fault | 7 SegmentsMeet at 78
program | - | 88 | 00 | fault | 7 SegmentsMeet at 78
program | - | 88 | fe ff ff 80 | fault | none
program | - | 88 | 09 | run ffffffff81000009 | c3 cc
program | - | 68 | 09 | fault | 7 SegmentsMeet at 78
program | - | 98 | 03 | fault | 6 SegmentOut at 78
program | - | 98 | 01 | run ffffffff81000008 | c3 00
program | - | a0 | 01 | fault | 6 SegmentOut at 78
program | - | a0 | 03 | run ffffffff81000008 | c3 cc 00
# The last address of memory is in no segment.
small | - | 50 | ff ff ff ff ff ff ff ff 00 00 00 00 00 00 00 00 00 00 00 00 00 00 00 00 01 | fault | 6 SegmentOut at 40
small | - | 50 | fe ff ff ff ff ff ff ff 00 00 00 00 00 00 00 00 00 00 00 00 00 00 00 00 01 | fault | none
small | - | 50 | ff ff ff ff ff ff ff ff 00 00 00 00 00 00 00 00 00 00 00 00 00 00 00 00 00 | fault | none
# The symbol table's section header, that of its strings, and entries.
program | - | f4 | 03 | symbol entry | none
program | - | 108 | ff ff ff ff ff ff ff ff | fault | 8 SymbolOut at f0
program | - | 108 | 87 | fault | 8 SymbolOut at f0
program | - | 110 | 77 | fault | 8 SymbolOut at f0
program | - | 110 | 79 | fault | 8 SymbolOut at f0
program | - | 110 | 18 | symbol entry | none
program | - | 110 | 30 | symbols | 1
program | - | 110 | 90 | fault | 8 SymbolOut at f0
program | - | 118 | 03 | fault | 8 SymbolOut at f0
program | - | 118 | 01 | fault | 8 SymbolOut at f0
program | - | 134 | 01 | fault | 8 SymbolOut at f0
program | - | 148 | f0 01 | fault | 8 SymbolOut at f0
program | - | 150 | 0e | fault | 8 SymbolOut at f0
program | - | 150 | 10 | fault | 8 SymbolOut at f0
program | - | 150 | 07 | fault | 8 SymbolOut at 1bf
program | - | 18f | 0f | fault | 8 SymbolOut at 18f
program | - | 18f | 0e | fault | none
program | - | 1bf | 0f | fault | 8 SymbolOut at 1bf
# Files that end early.
program | 0 | 0 | - | fault | 5 HeaderOut at 0
program | 1 | 0 | - | fault | 5 HeaderOut at 1
program | 3f | 0 | - | fault | 5 HeaderOut at 3f
program | 40 | 0 | - | fault | 5 HeaderOut at 40
program | af | 0 | - | fault | 5 HeaderOut at af
program | b0 | 0 | - | fault | 5 HeaderOut at b0
program | 16f | 0 | - | fault | 5 HeaderOut at 16f
program | 170 | 0 | - | fault | 6 SegmentOut at 40
program | 1fd | 0 | - | fault | 8 SymbolOut at f0
small | 77 | 0 | - | fault | 5 HeaderOut at 77
small | 78 | 0 | - | fault | 6 SegmentOut at 40
small | 7b | 0 | - | fault | 6 SegmentOut at 40
small | 7c | 0 | - | run ffffffff81000000 | 0f 01 f8 c3
# A header without tables is whole at 64 bytes.
header | 3f | 0 | - | fault | 5 HeaderOut at 3f
header | 40 | 0 | - | fault | none
header | 40 | 0 | - | segments | 0
header | 40 | 0 | - | symbols | 0
# Nine tables over one range, which have more entries than the file has room for; the last one has other strings.
tables | - | 0 | - | symbols | 1b
tables | - | 0 | - | symbol entry | 10
tables | - | 0 | - | symbol outside | 12
tables | - | 0 | - | symbol leave | 10
tables | - | 0 | - | symbol inside! | 12
tables | - | 0 | - | symbol inside | none
# Names of 129 and 128 bytes: the longer one isn't kept.
names | - | 0 | - | symbols | 1
names | - | 100 | 02 | symbols | 2
# Raw images.
raw | 0 | 0 | - | fault | 5 HeaderOut at 0
raw | 1 | 0 | - | fault | 1 BadMagic at 0
raw | 7 | 0 | - | fault | 1 BadMagic at 0
raw | 8 | 0 | - | fault | 5 HeaderOut at 8
raw | f | 0 | - | fault | 5 HeaderOut at f
raw | 10 | 0 | - | fault | none
raw | 10 | 0 | - | byte ffffffff81000000 | none
raw | - | 0 | - | run ffffffff81000000 | 90 0f 01 f8
raw | - | 0 | - | symbol ENTRYRAW | none
raw | 11 | 8 | fe ff ff ff ff ff ff ff | fault | none
raw | 11 | 8 | ff ff ff ff ff ff ff ff | fault | 6 SegmentOut at 8
raw | 10 | 8 | ff ff ff ff ff ff ff ff | fault | none
";

/// The bytes of a file by its name.
pub(crate) fn file_named(alloc: Global, name: &str) -> Result<Vec<u8>, Fail> {
    let text = match name {
        "program" => PROGRAM,
        "small" => SMALL,
        "header" => HEADER,
        "names" => NAMES,
        "tables" => TABLES,
        _ => RAW,
    };
    match case_of(text) {
        Some(mut bytes) => Ok(bytes.bytes(alloc)?),
        None => Ok(Vec::new(alloc)),
    }
}

/// The file of a case: the named one, cut to a length and with bytes put at an offset.
fn file_of(alloc: Global, case: &mut Case<'_>) -> Result<Vec<u8>, Fail> {
    let mut file = file_named(alloc, case.text())?;
    let length = case.text();
    let at = case.number()? as usize;
    for (i, byte) in case.bytes(alloc)?.iter().enumerate() {
        if let Some(place) = file.get_mut(at.wrapping_add(i)) {
            *place = *byte;
        }
    }
    if length != "-" {
        file.truncate(u64::from_str_radix(length, 16)? as usize);
    }
    Ok(file)
}

/// The loaded bytes from the address on, or `-`.
fn run_of(alloc: Global, image: &Image, address: u64) -> Result<String, Fail> {
    let mut buf = [0xEE; 15];
    let count = image.bytes_at(address, &mut buf);
    let mut text = String::new(alloc);
    for (i, byte) in buf.iter().take(count).enumerate() {
        let space = if i == 0 { "" } else { " " };
        text.push_str(format!(in alloc; "{space}{byte:02x}")?.as_str())?;
    }
    if count == 0 {
        text.push('-')?;
    }
    Ok(text)
}

/// What the image answers to a question of one or two words.
fn answer_of(alloc: Global, image: &Image, question: &str) -> Result<String, Fail> {
    let (word, rest) = question.split_once(' ').unwrap_or((question, ""));
    let none = format!(in alloc; "none")?;
    match word {
        "segments" => Ok(format!(in alloc; "{:x}", image.segment_count())?),
        "symbols" => Ok(format!(in alloc; "{:x}", image.symbol_count())?),
        "symbol" => match image.symbol(rest) {
            Some(address) => Ok(format!(in alloc; "{address:x}")?),
            None => Ok(none),
        },
        "byte" => match image.byte(u64::from_str_radix(rest, 16)?) {
            Some(byte) => Ok(format!(in alloc; "{byte:02x}")?),
            None => Ok(none),
        },
        "run" => run_of(alloc, image, u64::from_str_radix(rest, 16)?),
        _ => Ok(none),
    }
}

/// What a file answers to a question: its fault comes before every other answer.
fn answer(alloc: Global, file: Vec<u8>, question: &str) -> Result<String, Fail> {
    match read_image(alloc, file) {
        Ok(image) => answer_of(alloc, &image, question),
        Err(fault) => {
            let number = fault.kind as u8;
            Ok(format!(in alloc; "{number} {:?} at {:x}", fault.kind, fault.at)?)
        }
    }
}

#[test]
fn images_answer_as_their_files_say(rt: HostRuntime) -> Result<(), Fail> {
    for line in CASES.lines() {
        if let Some(mut case) = case_of(line) {
            let file = file_of(rt.alloc(), &mut case)?;
            let given = answer(rt.alloc(), file, case.text())?;
            assert_eq!(rt; given.as_str(), case.text(), "{line}");
        }
    }
    Ok(())
}
