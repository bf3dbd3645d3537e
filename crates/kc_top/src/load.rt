//! The files with which a mode begins: the image, and the description over its symbols, with the digests of both.

ghost use Rattle.std.specs.Prelude.{◌≡◌, IfOk, IfErr, Ok};
ghost use Rattle.kc_io.specs.Files.{FilesKept, HasFailed};
ghost use Rattle.kc_image.specs.ImageFile.{contents_of};
ghost use Rattle.kc_regions.specs.Valid.{IsValid};
ghost use Rattle.kc_config.specs.Reading.{description};
ghost use Rattle.kc_top.specs.RequestSteps.{inputs_of};
ghost use Rattle.kc_top.specs.Output.{AreLoaded};
ghost use Rattle.kc_top.specs.OutputSteps.{IsNoImage, IsNoDescription, IsUnloaded, IsOfBytes, IsUnmade};

use crate::operand::{CONFIG_LIMIT, IMAGE_LIMIT, operand};
use crate::request::Inputs;
use crate::stop::Stop;
use kc_cert::Digests;
use kc_config::{ConfigFault, read_config};
use kc_image::{Image, ImageKind, read_image};
use kc_io::Files;
use kc_regions::Config;
use sha2::{Digest, Sha256};
use std::alloc::Global;

/// An image, and a description that is valid and whose addresses name its symbols.
#[derive(Drop)]
pub struct Loaded {
    pub image: Image,
    pub config: Config,
    /// Of the bytes of the two files.
    pub digests: Digests,
}

/// The image of a file's bytes.
fn image_of<'a>(alloc: Global, file: Vec<u8>) -> Result<Image, Stop<'a>>
    ensures read { IfOk result (λ i. contents_of file.items ≡ Ok i) }
    ensures fault { IfErr result (IsNoImage file.items) }
{
    match read_image(alloc, file) {
        Ok(image) => Ok(image),
        Err(fault) => {
            if fault.kind == ImageKind::NoMemory {
                Err(Stop::NoMemory)
            } else {
                Err(Stop::BadImage(fault))
            }
        }
    }
}

/// The description that a text is.
fn config_of<'a>(alloc: Global, text: &[u8], image: &Image) -> Result<Config, Stop<'a>>
    ensures read { IfOk result (λ c. description image.now.symbols text.now ≡ Ok c) }
    ensures valid { IfOk result IsValid }
    ensures fault { IfErr result (IsNoDescription image.now text.now) }
{
    match read_config(alloc, text, image) {
        Ok(config) => Ok(config),
        Err(ConfigFault::NoMemory) => Err(Stop::NoMemory),
        Err(fault) => Err(Stop::BadConfig(fault)),
    }
}

/// Reads the image and the description in this order: each is judged before the next is opened.
pub fn load<'a, F: Files>(
    alloc: Global,
    files: &mut F,
    inputs: Inputs<'a>,
) -> Result<Loaded, Stop<'a>>
    ensures loaded { IfOk result (λ l. AreLoaded (F.state files.old).held (inputs_of inputs.entry) l) }
    ensures unloaded { IfErr result (IsUnloaded (F.state files.old).held
        (HasFailed (F.state files.old) (F.state files.new)) (inputs_of inputs.entry)) }
    ensures kept { FilesKept (F.state files.old) (F.state files.new) }
{
    let file = operand(alloc, files, inputs.image, IMAGE_LIMIT)?;
    let image_digest = Sha256::digest(&file);
    let image = image_of(alloc, file)?;
    let text = operand(alloc, files, inputs.config, CONFIG_LIMIT)?;
    let config = config_of(alloc, &text, &image)?;
    let digests = Digests {
        image: image_digest,
        config: Sha256::digest(&text),
    };
    Ok(Loaded {
        image,
        config,
        digests,
    })
}

/// What the bytes of an image and a description say.
pub fn loaded_of<'a>(alloc: Global, file: Vec<u8>, text: &[u8]) -> Result<Loaded, Stop<'a>>
    ensures loaded { IfOk result (IsOfBytes file.items text.now) }
    ensures unloaded { IfErr result (IsUnmade file.items text.now) }
{
    let digests = Digests {
        image: Sha256::digest(&file),
        config: Sha256::digest(text),
    };
    let image = image_of(alloc, file)?;
    let config = config_of(alloc, text, &image)?;
    Ok(Loaded {
        image,
        config,
        digests,
    })
}
