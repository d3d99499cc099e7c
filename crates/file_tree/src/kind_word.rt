use std::marker::Model;

/// A word that gives the file with this name a content type.
#[derive(Drop)]
pub struct KindWord {
    pub name: Vec<u8>,
    pub kind: Vec<u8>,
}

impl Model for KindWord {
    ghost use Rattle.file_tree.specs.Upgrading.{KindContent};

    ghost Value = { KindContent };

    ghost view = { λ word. record { name = word.name.items; kind = word.kind.items } };
}
