// Linear: the linear value of a level in decibels, by a table of 200 entries.
#![tactic(auto)]

ghost use Rattle.std.specs.Prelude.{◌≡◌, ◌*◌, ◌^◌, ◌≤◌, ◌<◌, length, get_or};
ghost use Rattle.quantities.specs.inner.Codes.{family_of};
ghost use Rattle.linear.specs.Roots.{roots};
ghost use Rattle.linear.specs.Linear.{linear_at, linear_below, millionths, negated};
ghost use Rattle.linear.specs.inner.Values.{powers_of_ten, all_values};

use layout::types;

// A level is stepped down to a multiple of 0.05 dB; 10 dB are so many steps, and the table has an entry for each.
const STEP: u64 = 50_000;

const STEPS: u64 = 200;

// The quietest level, in millionths of a decibel below 0 dB.
pub const QUIETEST: u64 = 150_000_000;

// The levels from 0 dB down to it, a step apart, both counted.
pub const LEVELS: usize = 3_001;

// An entry is in units of 10^-6 of its 10 dB, a sum in units of 10^-14.
const SHIFT: u64 = 8;

// At each k the largest whole number whose 200th power is at most 10 to the (k + 1200).
const ROOTS: [u32; 200] = [
    1000000, 1011579, 1023292, 1035142, 1047128, 1059253, 1071519, 1083926, 1096478, 1109174,
    1122018, 1135010, 1148153, 1161448, 1174897, 1188502, 1202264, 1216186, 1230268, 1244514,
    1258925, 1273503, 1288249, 1303166, 1318256, 1333521, 1348962, 1364583, 1380384, 1396368,
    1412537, 1428893, 1445439, 1462177, 1479108, 1496235, 1513561, 1531087, 1548816, 1566751,
    1584893, 1603245, 1621810, 1640589, 1659586, 1678804, 1698243, 1717908, 1737800, 1757923,
    1778279, 1798870, 1819700, 1840772, 1862087, 1883649, 1905460, 1927524, 1949844, 1972422,
    1995262, 2018366, 2041737, 2065380, 2089296, 2113489, 2137962, 2162718, 2187761, 2213094,
    2238721, 2264644, 2290867, 2317394, 2344228, 2371373, 2398832, 2426610, 2454708, 2483133,
    2511886, 2540972, 2570395, 2600159, 2630267, 2660725, 2691534, 2722701, 2754228, 2786121,
    2818382, 2851018, 2884031, 2917427, 2951209, 2985382, 3019951, 3054921, 3090295, 3126079,
    3162277, 3198895, 3235936, 3273406, 3311311, 3349654, 3388441, 3427677, 3467368, 3507518,
    3548133, 3589219, 3630780, 3672823, 3715352, 3758374, 3801893, 3845917, 3890451, 3935500,
    3981071, 4027170, 4073802, 4120975, 4168693, 4216965, 4265795, 4315190, 4365158, 4415704,
    4466835, 4518559, 4570881, 4623810, 4677351, 4731512, 4786300, 4841723, 4897788, 4954501,
    5011872, 5069907, 5128613, 5188000, 5248074, 5308844, 5370317, 5432503, 5495408, 5559042,
    5623413, 5688529, 5754399, 5821032, 5888436, 5956621, 6025595, 6095368, 6165950, 6237348,
    6309573, 6382634, 6456542, 6531305, 6606934, 6683439, 6760829, 6839116, 6918309, 6998419,
    7079457, 7161434, 7244359, 7328245, 7413102, 7498942, 7585775, 7673614, 7762471, 7852356,
    7943282, 8035261, 8128305, 8222426, 8317637, 8413951, 8511380, 8609937, 8709635, 8810488,
    8912509, 9015711, 9120108, 9225714, 9332543, 9440608, 9549925, 9660508, 9772372, 9885530,
];

// The powers of ten from the 0th to the eighth.
const POWERS: [u64; 9] = [
    1,
    10,
    100,
    1_000,
    10_000,
    100_000,
    1_000_000,
    10_000_000,
    100_000_000,
];

// The table, to be lent to all that use it: a constant array at a place that isn't known when compiled is laid on the stack at each use.
#[tactic(auto, unfolding(crate::specs::Roots::roots))]
fn table() -> [u32; 200]
    ensures { result ≡ roots }
{
    ROOTS
}

// The powers of ten, to be lent likewise.
#[tactic(auto, unfolding(crate::specs::inner::Values::powers_of_ten))]
fn powers() -> [u64; 9]
    ensures { result ≡ powers_of_ten }
{
    POWERS
}

// An entry of the table.
fn entry(table: &[u32; 200], k: usize) -> u64
    requires { (table.now ≡ roots) × (k < 200) }
    ensures { (result ≡ get_or roots k 0) × (result < 10 ^ 7) }
{
    u64::from(table[k])
}

// A power of ten, looked up: with `10u64.pow(..)` at each of the levels, and `div_ceil` beside it, a ping's energy in a small file took a
// quarter more time.
fn power(powers: &[u64; 9], n: u64) -> u64
    requires { (powers.now ≡ powers_of_ten) × (n ≤ 8) }
    ensures { (result ≡ 10 ^ n) × (result ≤ 100000000) }
{
    powers[n as usize]
}

// The linear value so many steps below 0 dB.
fn linear_at(table: &[u32; 200], powers: &[u64; 9], steps: u64) -> u64
    requires tables { (table.now ≡ roots) × (powers.now ≡ powers_of_ten) }
    requires steps_bound { steps ≤ 3000 }
    ensures { (result ≡ linear_at steps) × (result ≤ 100000000000000) }
{
    let tens = (steps + (STEPS - 1)) / STEPS;
    let k = (STEPS * tens - steps) as usize;
    let e = entry(table, k);
    if tens <= SHIFT {
        return e * power(powers, SHIFT - tens);
    }
    e / power(powers, tens - SHIFT)
}

// The linear values of all levels, to be lent to all that use them.
pub fn fill_values(values: &mut [u64; LEVELS])
    requires { length values.old ≡ 3001 }
    ensures { values.new ≡ all_values }
{
    let table = table();
    let powers = powers();
    for (steps, value) in values.iter_mut().enumerate() {
        *value = linear_at(&table, &powers, steps as u64);
    }
}

// The linear value of a level so far below 0 dB.
pub fn linear_below(values: &[u64; LEVELS], depth: u64) -> u64
    requires { (values.now ≡ all_values) × (depth ≤ 150000000) }
    ensures { (result ≡ linear_below depth) × (result ≤ 100000000000000) }
{
    // `div_ceil` was tried: with it a look-up takes 2.2 ns, and with a sum and one division 1.6.
    let steps = (depth + (STEP - 1)) / STEP;
    values[steps as usize]
}

// How far a value lies below 0, in its unit.
pub fn negated_of(value: i32) -> u64
    ensures { (result ≡ negated value) × (result ≤ 2147483648) }
{
    if value < 0 {
        u64::from(value.unsigned_abs())
    } else {
        0
    }
}

// The unit of a ping's values in millionths of a decibel.
pub fn unit_of(code: u16) -> u64
    ensures { (result ≡ millionths (family_of code)) × (result ≤ 10000) }
{
    match code {
        types::PING_U16 => 10_000,
        types::PING_C16 => 10_000,
        types::PING_CE16 => 1_000,
        types::PING_ANGLES => 0,
        types::PING_U16_ANGLES => 0,
        _ => 1,
    }
}
