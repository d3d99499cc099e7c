use std::marker::Model;

/// A file of the shelf, and its name in the image.
#[derive(Drop)]
pub struct NamedFile {
    pub name: Vec<u8>,
    pub file: Vec<u8>,
}

impl Model for NamedFile {
    ghost use Rattle.site_commands.specs.Gathering.{NamedContent};

    ghost Value = { NamedContent };

    ghost view = { λ named. record { name = named.name.items; file = named.file.items } };
}
