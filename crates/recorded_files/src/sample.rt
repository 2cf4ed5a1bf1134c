//! A small LAS file.

/// A LAS 1.4 file of two points in format 0, at (1, 2, 3) and at (-0.01, 0, 0.05), with scale factors of 0.01.
pub fn two_points() -> [u8; 415] {
    let mut bytes = [0u8; 415];
    bytes[..4].copy_from_slice(b"LASF");
    bytes[24..26].copy_from_slice(&[1, 4]);
    bytes[94..98].copy_from_slice(&[0x77, 1, 0x77, 1]);
    bytes[105] = 20;
    bytes[107] = 2;
    bytes[111] = 2;
    for at in [131usize, 139, 147] {
        bytes[at..at + 8].copy_from_slice(&0x3F84_7AE1_47AE_147Bu64.to_le_bytes());
    }
    bytes[247] = 2;
    bytes[255] = 2;
    bytes[375..383].copy_from_slice(&[0x64, 0, 0, 0, 0xc8, 0, 0, 0]);
    bytes[383..391].copy_from_slice(&[0x2c, 1, 0, 0, 0, 0, 9, 2]);
    bytes[395..403].copy_from_slice(&[0xff, 0xff, 0xff, 0xff, 0, 0, 0, 0]);
    bytes[403..411].copy_from_slice(&[5, 0, 0, 0, 0, 0, 9, 2]);
    bytes
}
