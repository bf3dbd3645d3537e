//! Descriptions by their names.

use kc_config::{ConfigFault, read_config};
use kc_image::{Image, ImageKind, read_image};
use kc_plain::NoMemory;
use kc_regions::Config;
use std::alloc::Global;

// A description, its text, and the number of its image.
#[derive(Drop)]
struct Named {
    name: String,
    image: usize,
    text: String,
    config: Config,
}

/// Descriptions, each by its name and with the text and the image that it was read from.
#[derive(Drop)]
pub struct Descriptions {
    images: Vec<Image>,
    all: Vec<Named>,
}

/// A description that isn't read yet: an earlier one's image, and a text.
#[derive(Drop)]
pub(crate) struct Draft {
    pub(crate) name: String,
    pub(crate) image: usize,
    pub(crate) text: String,
}

impl Descriptions {
    /// No description.
    pub fn new(alloc: Global) -> Descriptions {
        Descriptions {
            images: Vec::new(alloc),
            all: Vec::new(alloc),
        }
    }

    /// The description of this name.
    pub fn get(&self, name: &str) -> Option<&Config> {
        Some(&self.named(name)?.config)
    }

    fn named(&self, name: &str) -> Option<&Named> {
        self.all.iter().find(|d| d.name.as_str() == name)
    }

    /// Adds the description of this image and this text, and tells whether both are good.
    pub fn add(
        &mut self,
        alloc: Global,
        name: &str,
        image: Vec<u8>,
        text: &str,
    ) -> Result<bool, NoMemory> {
        let number = self.images.len();
        match read_image(alloc, image) {
            Ok(image) => self.images.push(image)?,
            Err(fault) if fault.kind == ImageKind::NoMemory => return Err(NoMemory),
            Err(_) => return Ok(false),
        }
        let draft = Draft {
            name: String::from_str(alloc, name)?,
            image: number,
            text: String::from_str(alloc, text)?,
        };
        self.add_draft(alloc, draft)
    }

    // A draft of this name with the text of `base`.
    pub(crate) fn draft(
        &self,
        alloc: Global,
        name: &str,
        base: &str,
    ) -> Result<Option<Draft>, NoMemory> {
        match self.named(base) {
            Some(base) => Ok(Some(Draft {
                name: String::from_str(alloc, name)?,
                image: base.image,
                text: base.text.clone()?,
            })),
            None => Ok(None),
        }
    }

    // Adds what the draft says, and tells whether it is good.
    pub(crate) fn add_draft(&mut self, alloc: Global, draft: Draft) -> Result<bool, NoMemory> {
        let Some(image) = self.images.get(draft.image) else {
            return Ok(false);
        };
        match read_config(alloc, draft.text.as_bytes(), image) {
            Ok(config) => {
                self.all.push(Named {
                    name: draft.name,
                    image: draft.image,
                    text: draft.text,
                    config,
                })?;
                Ok(true)
            }
            Err(ConfigFault::NoMemory) => Err(NoMemory),
            Err(_) => Ok(false),
        }
    }
}
