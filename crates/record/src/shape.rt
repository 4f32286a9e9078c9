// What fixes the table of the record: two numbers of a device.
ghost use Rattle.std.specs.Prelude.{◌≤◌};
ghost use Rattle.model.specs.Layout.{most_vcpus};

// The interrupt count and the number of vCPUs of a device that has a record.
#[derive(Clone, Copy)]
pub struct Shape {
    pub count: usize,
    pub vcpus: usize,
    ghost least: { 64 ≤ count },
    ghost most: { count ≤ 1024 },
    ghost few: { vcpus ≤ most_vcpus },
}
