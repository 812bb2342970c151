// The style of the page.

/// The style sheet. It holds no byte that is escaped, so it stands in the page as it is here.
pub const STYLE: &str = "
:root { color-scheme: light dark; font: 16px/1.4 system-ui, sans-serif }
body { max-width: 75rem; margin: auto; padding: 1rem }
h1, h2, p { margin: 0; overflow-wrap: break-word }
h2 { margin-top: 3rem }
nav ul { display: flex; flex-wrap: wrap; gap: 0.5rem 1.25rem; margin: 1.5rem 0; padding: 0; list-style: none }
div { overflow-x: auto }
table { border-collapse: collapse; min-width: 100%; margin-top: 1rem; font-variant-numeric: tabular-nums }
caption, th { text-align: left; font-weight: normal }
caption, thead, small { opacity: 0.75 }
th, td { padding: 0.25em 0.75em 0.25em 0; border-bottom: 1px solid #8886; vertical-align: top }
small { white-space: nowrap }
td a { color: inherit; text-decoration: none }
td a:hover { text-decoration: underline }
@media (max-width: 45rem) {
  :root { font-size: 14px }
  table { font-size: 13px }
  th, td { padding-right: 0.4em }
  small { display: block }
  section:not(#standings) td:has(small) { overflow-wrap: anywhere }
}
@page wide { size: landscape }
@media print {
  :root { color-scheme: light; font-size: 9pt }
  body { max-width: none; padding: 0 }
  nav { display: none }
  h2 { margin-top: 1rem }
  section + section { break-before: page }
  #standings { page: wide }
  th, td { padding: 0.15em 0.5em 0.15em 0 }
  tr { break-inside: avoid }
  div { overflow-x: visible }
}
";
