use file_tree::SiteError;
use std::marker::Model;

/// The text to write, and the fault of the image, if there is one.
#[derive(Drop)]
pub(crate) struct Outcome {
    pub text: Vec<u8>,
    pub fault: Option<SiteError>,
}

impl Model for Outcome {
    ghost use Rattle.site_commands.specs.Due.{Due};

    ghost Value = { Due };

    ghost view = { λ outcome. record { text = outcome.text.items; fault = outcome.fault } };
}
