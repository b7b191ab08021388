//! How a page begins.
ghost use Rattle.std.specs.Prelude.{◌≡◌};
ghost use Rattle.page_frame.specs.Starts.{page_start};

/// How a page begins, up to its title.
pub fn page_start() -> &'static str
    ensures { result.now ≡ page_start }
{
    "<!DOCTYPE html>\n<html lang=\"en\">\n<head>\n<meta charset=\"utf-8\">\n<meta name=\"viewport\" content=\"width=device-width, initial-scale=1\">\n<title>"
}
