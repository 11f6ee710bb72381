use shard_files::of_m3_model::Seq;
use shard_files::of_m3_outside::FileName;

/// A file that is to be made: its name and its bytes.
#[derive(Drop)]
pub struct NewFile {
    pub name: FileName,
    pub bytes: Seq<u8>,
}
