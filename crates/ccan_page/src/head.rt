//! How the page begins.

/// From the first byte to the style. The policy lets the page load nothing from elsewhere.
pub(crate) const HEAD: &str = "<!DOCTYPE html>
<html lang='en'>
<head>
<meta charset='utf-8'>
<meta name='viewport' content='width=device-width, initial-scale=1'>
<meta name='color-scheme' content='light dark'>
<meta http-equiv='Content-Security-Policy'
  content=\"default-src 'none'; style-src 'unsafe-inline'; script-src 'unsafe-inline'; base-uri 'none'; form-action 'none'\">
<title>Steps of a script</title>
";
