// The areas of the index: where the table has no rows, an index is absent.
ghost use Rattle.std.specs.Prelude.{◌≡◌};
ghost use Rattle.table.specs.Areas.{in_empty_area};

pub fn is_empty(index: u16) -> bool
    ensures { result ≡ in_empty_area index }
{
    match index {
        0x0000..=0x0FFF => true,
        // communication, manufacturer, input
        0x1000..=0x1FFF => false,
        0x2000..=0x5FFF => false,
        0x6000..=0x6FFF => false,
        // output
        0x7000..=0x7FFF => true,
        // configuration, information
        0x8000..=0x8FFF => false,
        0x9000..=0x9FFF => false,
        // diagnosis, service transfer, reserved
        0xA000..=0xEFFF => true,
        // device
        0xF000..=0xFFFF => false,
    }
}
