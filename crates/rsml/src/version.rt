/// What `version` writes: the release, the edition of the notation, and the SHA-256 of the definitions that the contracts cite
/// (`tools/definitions_sum.sh`).
pub const VERSION: &[u8] = b"rsml 0.2.0 edition 2
definitions 6901ad2d4d7805172da691c6d1a9aa542ad659cdf56e7b369d8267c0b425c994
";
