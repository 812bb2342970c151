// The tags and the attributes that a page has.
ghost use Rattle.std.specs.Prelude.{◌≡◌};
ghost use Rattle.markup.specs.Tags.{attribute_name, ends_line, is_void, opens_line, tag_name};

/// A tag.
#[derive(Clone, Copy)]
pub enum Tag {
    /// `html`, the whole page.
    Html,
    /// `head`.
    Head,
    /// `meta`, which has no content and no end.
    Meta,
    /// `title`.
    Title,
    /// `style`.
    Style,
    /// `body`.
    Body,
    /// `header`, what stands in front of a body.
    Header,
    /// `h1`.
    Heading,
    /// `h2`.
    Subheading,
    /// `p`.
    Paragraph,
    /// `nav`.
    Nav,
    /// `ul`.
    List,
    /// `li`.
    Item,
    /// `a`.
    Link,
    /// `main`, what a page is about.
    Main,
    /// `section`.
    Section,
    /// `div`.
    Division,
    /// `table`.
    Table,
    /// `caption`.
    Caption,
    /// `thead`.
    TableHead,
    /// `tbody`.
    TableBody,
    /// `tr`.
    Row,
    /// `th`.
    HeaderCell,
    /// `td`.
    Cell,
    /// `small`.
    Small,
}

impl Tag {
    // The name as it is written.
    pub(crate) fn name(self) -> &'static str
        ensures { result.now ≡ tag_name self }
    {
        match self {
            Tag::Html => "html",
            Tag::Head => "head",
            Tag::Meta => "meta",
            Tag::Title => "title",
            Tag::Style => "style",
            Tag::Body => "body",
            Tag::Header => "header",
            Tag::Heading => "h1",
            Tag::Subheading => "h2",
            Tag::Paragraph => "p",
            Tag::Nav => "nav",
            Tag::List => "ul",
            Tag::Item => "li",
            Tag::Link => "a",
            Tag::Main => "main",
            Tag::Section => "section",
            Tag::Division => "div",
            Tag::Table => "table",
            Tag::Caption => "caption",
            Tag::TableHead => "thead",
            Tag::TableBody => "tbody",
            Tag::Row => "tr",
            Tag::HeaderCell => "th",
            Tag::Cell => "td",
            Tag::Small => "small",
        }
    }

    // True if it has no content and no end.
    pub(crate) fn is_void(self) -> bool
        ensures { result ≡ is_void self }
    {
        matches!(self, Tag::Meta)
    }

    // True if a new line begins behind its start.
    pub(crate) fn opens_line(self) -> bool
        ensures { result ≡ opens_line self }
    {
        match self {
            Tag::Html
            | Tag::Head
            | Tag::Meta
            | Tag::Body
            | Tag::Header
            | Tag::Nav
            | Tag::List
            | Tag::Main
            | Tag::Section
            | Tag::Division
            | Tag::Table
            | Tag::TableHead
            | Tag::TableBody => true,
            _ => false,
        }
    }

    // True if a new line begins behind its end.
    pub(crate) fn ends_line(self) -> bool
        ensures { result ≡ ends_line self }
    {
        match self {
            Tag::Link | Tag::HeaderCell | Tag::Cell | Tag::Small => false,
            _ => true,
        }
    }
}

/// The name of an attribute.
#[derive(Clone, Copy)]
pub enum AttributeName {
    /// `lang`.
    Lang,
    /// `charset`.
    Charset,
    /// `name`.
    Name,
    /// `content`.
    Content,
    /// `id`.
    Id,
    /// `href`.
    Href,
    /// `scope`.
    Scope,
    /// `colspan`.
    Colspan,
}

impl AttributeName {
    // The name as it is written.
    pub(crate) fn name(self) -> &'static str
        ensures { result.now ≡ attribute_name self }
    {
        match self {
            AttributeName::Lang => "lang",
            AttributeName::Charset => "charset",
            AttributeName::Name => "name",
            AttributeName::Content => "content",
            AttributeName::Id => "id",
            AttributeName::Href => "href",
            AttributeName::Scope => "scope",
            AttributeName::Colspan => "colspan",
        }
    }
}
