// Locating a group: its own value bytes as a part of the lent file, or their offset and length.
#![tactic(auto)]

ghost use Rattle.std.specs.Prelude.{◌≡◌};
ghost use Rattle.file_locate.specs.Locating.{Located, located_part};

// A part of a file by its place: what stands for `locate`'s answer where no slice can be handed back.
#[repr(C)]
#[derive(Clone, Copy, Default)]
pub struct LocatedPart {
    pub offset: usize,
    pub length: usize,
}

// The group's own value bytes, as that part of the lent file; on a refusal the part of length zero at its start.
// Kept: file and group apart, here and below, as they come one by one over the C interface.
pub fn locate(file: &[u8], group: u8) -> &[u8]
    ensures { Located file.entry group result }
{
    file_group::find_checked(file, group).map_or(
        &file[..0],
        |at| file_layout::value_bytes(file, at),
    )
}

// Where the group's own value bytes begin, and how many they are; both 0 on a refusal.
// Kept: `let .. else`, which document 01 lists ("Forms by place"), for what is taken where nothing was refused.
pub fn located_part(file: &[u8], group: u8) -> LocatedPart
    ensures { result ≡ located_part file.now group }
{
    let Ok(at) = file_group::find_checked(file, group) else {
        return LocatedPart::default();
    };
    let layout = file_layout::layout_of(file);
    LocatedPart {
        offset: at + layout.before,
        length: layout.entries * 2,
    }
}
