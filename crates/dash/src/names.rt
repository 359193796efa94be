// What the workshop calls the facts and the steps, each from 1 on.
pub const FACTS: [&str; 9] = [
    "seal open",
    "unlocked",
    "wheel lifted",
    "wrong circumference stored",
    "right circumference stored",
    "speed verified",
    "sealed",
    "locked",
    "wheel on the ground",
];

pub const STEPS: [&str; 8] = [
    "open the seal",
    "unlock",
    "lift the wheel",
    "set the circumference",
    "verify the speed",
    "lower the wheel",
    "lock",
    "seal",
];
