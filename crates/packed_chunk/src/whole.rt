//! The bytes of dimensions that stand in a row together.

ghost use Rattle.std.specs.Prelude.{◌≡◌};
ghost use Rattle.std.specs.Int.{w8, to_le_bytes};
ghost use Rattle.packed_chunk.specs.Rows.{all_bytes, first_dims, flag_dims, angle_dims, colour_dims};

use cloud_points::Point;

// A byte by itself.
#[inline(always)]
fn one_byte(number: u8) -> [u8; 1]
    ensures { result ≡ to_le_bytes w8 number }
{
    number.to_le_bytes()
}

/// Those of the first dimensions.
#[inline(always)]
pub fn first_bytes(p: &Point) -> [u8; 34]
    ensures { result ≡ all_bytes p.now first_dims }
{
    let x = p.x.to_le_bytes();
    let y = p.y.to_le_bytes();
    let z = p.z.to_le_bytes();
    let light = p.intensity.to_le_bytes();
    let number = one_byte(p.return_number);
    let returns = one_byte(p.number_of_returns);
    let direction = one_byte(p.scan_direction_flag);
    let edge = one_byte(p.edge_of_flight_line);
    let class = one_byte(p.classification);
    let synthetic = one_byte(p.synthetic);
    let key = one_byte(p.key_point);
    let withheld = one_byte(p.withheld);
    [
        x[0],
        x[1],
        x[2],
        x[3],
        x[4],
        x[5],
        x[6],
        x[7],
        y[0],
        y[1],
        y[2],
        y[3],
        y[4],
        y[5],
        y[6],
        y[7],
        z[0],
        z[1],
        z[2],
        z[3],
        z[4],
        z[5],
        z[6],
        z[7],
        light[0],
        light[1],
        number[0],
        returns[0],
        direction[0],
        edge[0],
        class[0],
        synthetic[0],
        key[0],
        withheld[0],
    ]
}

/// Those of the two flags that formats 0 to 5 lack.
#[inline(always)]
#[tactic(auto, unfolding(crate::specs::Rows::all_bytes))]
pub fn flag_bytes(p: &Point) -> [u8; 2]
    ensures { result ≡ all_bytes p.now flag_dims }
{
    let overlap = one_byte(p.overlap);
    let channel = one_byte(p.scan_channel);
    [overlap[0], channel[0]]
}

/// Those of the angle, the user's byte and the source.
#[inline(always)]
pub fn angle_bytes(p: &Point) -> [u8; 11]
    ensures { result ≡ all_bytes p.now angle_dims }
{
    let angle = p.scan_angle_rank.to_le_bytes();
    let user = one_byte(p.user_data);
    let source = p.point_source_id.to_le_bytes();
    [
        angle[0], angle[1], angle[2], angle[3], angle[4], angle[5], angle[6], angle[7], user[0],
        source[0], source[1],
    ]
}

/// Those of the colours.
#[inline(always)]
#[tactic(auto, unfolding(crate::specs::Rows::all_bytes))]
pub fn colour_bytes(p: &Point) -> [u8; 6]
    ensures { result ≡ all_bytes p.now colour_dims }
{
    let red = p.red.to_le_bytes();
    let green = p.green.to_le_bytes();
    let blue = p.blue.to_le_bytes();
    [red[0], red[1], green[0], green[1], blue[0], blue[1]]
}
