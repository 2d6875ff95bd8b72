// The ten phases of a session, in the order in which they come.
use times::Times;

#[derive(Clone, Copy)]
pub struct Phase {
    pub name: &'static str,
    // How wide its column is in the text.
    pub width: usize,
    // Its colour in the picture, and how many pixels its name takes in the legend there.
    pub colour: &'static str,
    pub legend: u64,
}

// The place of the image among them.
pub const IMAGE: usize = 6;

impl Phase {
    fn new(name: &'static str, width: usize, colour: &'static str, legend: u64) -> Phase {
        Phase {
            name,
            width,
            colour,
            legend,
        }
    }

    pub fn all() -> [Phase; 10] {
        [
            Phase::new("calibration", 11, "#000000", 108),
            Phase::new("handshake", 12, "#0072b2", 106),
            Phase::new("connection", 12, "#56b4e9", 110),
            Phase::new("version", 11, "#f0e442", 84),
            Phase::new("command", 11, "#d55e00", 98),
            Phase::new("size", 11, "#cc79a7", 62),
            Phase::new("image", 15, "#bbbbbb", 72),
            Phase::new("ram", 11, "#009e73", 60),
            Phase::new("programming", 13, "#e69f00", 118),
            Phase::new("verification", 14, "#882255", 110),
        ]
    }
}

// How long each takes, in ns.
pub fn durations(times: &Times) -> [u64; 10] {
    [
        times.calibration,
        times.handshake,
        times.connection,
        times.version,
        times.command,
        times.size,
        times.image,
        times.ram,
        times.programming,
        times.verification,
    ]
}
