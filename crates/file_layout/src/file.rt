// A file whose header passed questions 1 to 3: it has just the bytes that its layout says.
ghost use Rattle.file_layout.specs.Header.{layout_of};
ghost use Rattle.file_layout.specs.Inside.{LaidOut};

use crate::{Layout, header_questions};
use refusal::Refusal;

#[derive(Clone, Copy)]
pub struct ProfileFile<'a> {
    pub bytes: &'a [u8],
    pub ghost laid: { LaidOut (layout_of bytes.now) bytes.now },
}

impl<'a> ProfileFile<'a> {
    ghost use Rattle.std.specs.Prelude.{◌≡◌, ◌<◌, Err, MatchResult};
    ghost use Rattle.refusal.specs.Questions.{Pass};
    ghost use Rattle.file_layout.specs.Header.{header_check};

    // Questions 1 to 3.
    #[tactic(auto, using(crate::proofs::Header::laid_out))]
    pub fn new(bytes: &'a [u8]) -> Result<ProfileFile<'a>, Refusal>
        ensures { MatchResult result
            (λ file. (header_check bytes.now ≡ Pass) × (file.bytes ≡ bytes.entry))
            (λ refusal. header_check bytes.now ≡ Err refusal) }
    {
        header_questions(bytes)?;
        Ok(ProfileFile { bytes })
    }

    // What the header says of the profiles.
    pub fn layout(self) -> Layout
        ensures { (result ≡ layout_of self.entry.bytes.now) × (result.count < 256) }
    {
        crate::layout_of(self.bytes)
    }
}
