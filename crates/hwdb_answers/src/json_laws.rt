//! Laws of the lines of JSON. The function does nothing: its contract is the law.
ghost use Rattle.hwdb_answers.specs.JsonLaws.{TextsAreReadBack, DevicesAreReadBack};

/// What is read of a text's value is the text, whatever its bytes. What is read of a device's line is the device, and
/// each of its properties. So nothing is lost.
pub fn json_is_read_back()
    ensures texts { TextsAreReadBack }
    ensures devices { DevicesAreReadBack }
{}
