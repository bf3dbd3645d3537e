//! The samples and generated inputs, compared with images and configurations that were made elsewhere.

use kc_decode::decode;
use kc_encode::encode;
use kc_gen::{Line, Sample, assemble, generate, sample};
use kc_tables::case_of;
use sha2::{Digest, Sha256};
use std::test::Fail;

/// Each sample with the SHA-256 of its image and of its configuration.
const DIGESTS: &str = "\
S0 | image | fa fd 8f 38 05 b7 95 97 ba d6 de a9 4f c6 22 31 26 f6 e8 21 b7 a1 bc 6e 5b 17 ee 59 8d de 1a 16
S0 | configuration | b4 fc f1 a8 0f 42 c4 9d 15 52 11 08 ba 5d 0c e5 77 af 17 2a dd e7 fa 73 60 0e ba a4 a0 e8 ff 7c
S1 | image | 38 c9 12 50 db 00 05 d4 e9 8f 1f b1 38 c8 02 e7 d6 9a 68 63 89 72 46 f0 90 fc 14 ab 52 fc 8f 8c
S1 | configuration | 56 44 a4 28 9d 89 11 cc 97 42 40 60 73 47 43 a4 0f 29 a2 30 27 e3 1e 24 1e 32 85 dd d9 a7 39 ad
S2 | image | 4f 89 3b f0 aa c1 6f 9c 9b 93 5a 4e f7 94 32 f8 2c 4e 23 f5 6b ec f3 4b 61 61 90 f6 09 fa 19 5b
S2 | configuration | 65 68 53 18 29 0a a8 47 16 83 ce 77 74 7b 8b 4e 16 d2 bd 76 f9 c3 3f cb 1a 11 cd 4c b6 94 98 f8
";

/// Seed and size with the SHA-256 of the image and of the configuration, from the heads of
/// certificates that were made elsewhere.
const GENERATED: &str = "\
0x5 | 0x28 | b4 b3 26 de 36 20 72 ce 93 cf d8 ac d6 6a 47 78 3b ec a7 5f 1d e3 b9 8f 81 07 23 26 1c 36 17 50 | 8e 74 cd 00 f7 e4 15 2b 9c e2 9b 6a ef aa 69 dd b1 89 24 dd 93 2f 50 ad 5b 63 e0 90 31 98 52 b1
0x1 | 0x1 | 7b ac 5e 5f 9a 71 09 c7 d2 c4 ad f2 f1 75 87 8c 7e d3 a4 ea ac 64 5d fb de b2 80 df 3d 71 6d 41 | 8e 74 cd 00 f7 e4 15 2b 9c e2 9b 6a ef aa 69 dd b1 89 24 dd 93 2f 50 ad 5b 63 e0 90 31 98 52 b1
";

#[test]
fn a_listing_is_filled_up_to_its_last_address(rt: HostRuntime) -> Result<(), Fail> {
    let alloc = rt.alloc();
    let image = assemble(alloc, 0x40_0000, &[Line::At(0x40_0003)]).expect(&rt, "memory");
    assert!(rt; image.as_slice() == b"ENTRYRAW\0\0\x40\0\0\0\0\0\x90\x90\x90".as_slice());
    Ok(())
}

#[test]
fn samples_have_the_digests_of_the_table(rt: HostRuntime) -> Result<(), Fail> {
    let alloc = rt.alloc();
    for line in DIGESTS.lines() {
        let Some(mut case) = case_of(line) else {
            continue
        };
        let which = match case.text() {
            "S0" => Sample::S0,
            "S1" => Sample::S1,
            _ => Sample::S2,
        };
        let (image, config) = sample(alloc, which).expect(&rt, "memory");
        let bytes = if case.text() == "image" {
            image
        } else {
            config
        };
        assert!(rt;
            Sha256::digest(&bytes).as_slice() == case.bytes(alloc)?.as_slice(),
            "{line}"
        );
    }
    Ok(())
}

#[test]
fn generated_inputs_have_the_digests_of_the_table(rt: HostRuntime) -> Result<(), Fail> {
    let alloc = rt.alloc();
    for line in GENERATED.lines() {
        let Some(mut case) = case_of(line) else {
            continue
        };
        let seed = case.number()?;
        let size = case.number()?.clamp(1, 6000) as u32;
        let (image, config) = generate(alloc, seed, size).expect(&rt, "memory");
        for bytes in [image, config] {
            assert!(rt;
                Sha256::digest(&bytes).as_slice() == case.bytes(alloc)?.as_slice(),
                "{line}"
            );
        }
    }
    Ok(())
}

#[test]
fn the_code_of_s1_is_decoded_and_encoded_again(rt: HostRuntime) -> Result<(), Fail> {
    let alloc = rt.alloc();
    let (image, _) = sample(alloc, Sample::S1).expect(&rt, "memory");
    let mut at = 16;
    for _ in 0..image.len() {
        if at >= image.len() {
            break;
        }
        let address = 0xffff_ffff_8100_0000_u64.wrapping_add((at as u64).wrapping_sub(16));
        let (insn, len) = decode(&image[at..], address).expect(&rt, "an instruction");
        let end = at.saturating_add(usize::from(len)).min(image.len());
        assert!(rt; insn.encodable());
        if insn.encodable() {
            let bytes = encode(alloc, &insn, address).expect(&rt, "a spelling");
            assert!(rt; bytes.as_slice() == &image[at..end]);
        }
        at = end;
    }
    assert!(rt; at == image.len());
    Ok(())
}
