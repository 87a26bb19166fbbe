//! Schema files, what is handed on in their place, and what is noted of them, worked out by hand.

/// Files in the compact syntax. Behind each `=> ` and what is handed on, and `=> ` and the notes, each with the place that it is about; a
/// blank line stands between two. `%` stands for the URI of XML Schema's library.
pub(crate) const COMPACT: &str = r##"start = element a { xsd:QName }
=> start = element a { token     }
=> 20 QName token

start = element a { xsd:string, xsd:date, xsd:base64Binary, string, token, xsd:foo }
=> start = element a { xsd:string, xsd:date, xsd:base64Binary, string, token, xsd:foo }
=> none

start = element a { attribute b { xsd:ENTITY }, xsd:ENTITIES }
=> start = element a { attribute b { xsd:NCName }, xsd:IDREFS   }
=> 34 ENTITY NCName; 48 ENTITIES IDREFS

a = xsd:float | xsd:double | (xsd:duration) & xsd:NOTATION, xsd:gDay
=> a = token     | token      | (token       ) & token       , token   
=> 4 float token; 16 double token; 30 duration token; 46 NOTATION token; 60 gDay token

a |= xsd:gMonth
b &= xsd:gMonthDay
=> a |= token     
b &= token        
=> 5 gMonth token; 21 gMonthDay token

datatypes d = "%"
start = element a { d:QName }
=> datatypes d = "%"
start = element a { token   }
=> 79 QName token

datatypes d = "%"
start = element a { d:ENTITY}
=> datatypes d = "%"
start = element a { d:NCName}
=> 79 ENTITY NCName

datatypes xsd = "u"
start = element a { xsd:QName }
=> datatypes xsd = "u"
start = element a { xsd:QName }
=> none

datatypes xsd = "u"
datatypes list = "%"
start = element a { xsd:QName, list:QName}
=> datatypes xsd = "u"
datatypes list = "%"
start = element a { xsd:QName, token     }
=> 113 QName token

datatypes d = "u"
start = element a { d:QName, xsd:QName}
=> datatypes d = "u"
start = element a { d:QName, token    }
=> 47 QName token

datatypes d = "http://www.w3.org/2001/" ~ "XMLSchema-datatypes"
a = d:QName | xsd:QName
=> datatypes d = "http://www.w3.org/2001/" ~ "XMLSchema-datatypes"
a = d:QName | token    
=> 78 QName token

datatypes d = "%" ~ ""
a = d:QName
=> datatypes d = "%" ~ ""
a = d:QName
=> none

namespace xsd = "u"
start = element xsd:QName { attribute xsd:float { text }, element * - (xsd:date | xsd:float) { xsd:QName } }
=> namespace xsd = "u"
start = element xsd:QName { attribute xsd:float { text }, element * - (xsd:date | xsd:float) { token     } }
=> 115 QName token

namespace element = "u"
start = element element:a { xsd:QName }
=> namespace element = "u"
start = element element:a { token     }
=> 52 QName token

datatypes d = "%"
a = d:QName | xsd:ENTITY
=> datatypes d = "%"
a = token   | xsd:NCName
=> 63 QName token; 73 ENTITY NCName

datatypes inherit = "%"
a = inherit:QName
=> datatypes inherit = "%"
a = token        
=> 69 QName token

datatypes attribute = "%"
a = attribute:QName
=> datatypes attribute = "%"
a = token          
=> 71 QName token

[ xsd:float [ "x" xsd:float [ ] ] xsd:QName = "y" ] start = element a { xsd:float >> xsd:float [ "z" ] }
=> [ xsd:float [ "x" xsd:float [ ] ] xsd:QName = "y" ] start = element a { token     >> xsd:float [ "z" ] }
=> 72 float token

a = text >> element [ ] b = xsd:float
=> a = text >> element [ ] b = token    
=> 28 float token

start = grammar { xsd:float [ "x" ] start = element a { xsd:float } }
=> start = grammar { xsd:float [ "x" ] start = element a { token     } }
=> 56 float token

a = xsd:float [ x:y = "z" ] b = xsd:float
=> a = token     [ x:y = "z" ] b = token    
=> 4 float token; 32 float token

a = [ x:y = "z" ] xsd:float
=> a = [ x:y = "z" ] token    
=> 18 float token

start = element a { xsd:QName "x" | xsd:float "1" }
=> start = element a { xsd:QName "x" | xsd:float "1" }
=> none

start = element a { xsd:QName { length = "3" pattern = "x" } }
=> start = element a { token     {                            } }
=> 20 QName token; 32 length; 45 pattern

start = element a { xsd:ENTITY{ length = "3" pattern = "x" maxLength = "9" } }
=> start = element a { xsd:NCName{ length = "3"               maxLength = "9" } }
=> 20 ENTITY NCName; 45 pattern

a = xsd:date { minInclusive = "2000-01-01"}, xsd:decimal { minInclusive = "1" totalDigits = "3" fractionDigits = "2"}
=> a = xsd:date {                            }, xsd:decimal { minInclusive = "1"                                       }
=> 15 minInclusive; 78 totalDigits; 96 fractionDigits

a = xsd:boolean { pattern = "x"}, xsd:language { minLength = "1"}, xsd:int { pattern="1"}
=> a = xsd:boolean {              }, xsd:language {                }, xsd:int {            }
=> 18 pattern; 49 minLength; 77 pattern

a = xsd:string { totalDigits = "3" }, xsd:boolean { length = "1" }, xsd:date { length = "1" }, xsd:token { enumeration = "x" }
=> a = xsd:string { totalDigits = "3" }, xsd:boolean { length = "1" }, xsd:date { length = "1" }, xsd:token { enumeration = "x" }
=> none

a = xsd:string { pattern = "x" ~ 'y' ~ "z"
  minLength = "1" }
=> a = xsd:string {                          
  minLength = "1" }
=> 17 pattern

a = xsd:double { length = "3" }
=> a = token      { length = "3" }
=> 4 double token

a = xsd:string { [ b = "c" ] pattern = "x" }, string { pattern = "x" }, token { pattern = "x" }
=> a = xsd:string { [ b = "c" ] pattern = "x" }, string { pattern = "x" }, token { pattern = "x" }
=> none

a = xsd:string { pattern "x" }
=> a = xsd:string { pattern "x" }
=> none

a = xsd:string { element = "x" pattern = "x" }
=> a = xsd:string { element = "x"               }
=> 31 pattern

a = xsd:QName - xsd:QName
=> a = token     - xsd:QName
=> 4 QName token

a = xsd:string - (xsd:QName | xsd:token { pattern = "x" } | (xsd:float)), xsd:float
=> a = xsd:string - (xsd:QName | xsd:token { pattern = "x" } | (xsd:float)), token    
=> 74 float token

a = xsd:token { pattern = "a" } - xsd:token { pattern = "b" }
=> a = xsd:token {               } - xsd:token { pattern = "b" }
=> 16 pattern

a = xsd:float # comment
  b = text
=> a = token              
  b = text
=> 4 float token

a = \x{78}sd:QName 
=> a = token          
=> 4 QName token

xsd:QName
=> token    
=> 0 QName token

namespace n = "u"
xsd:string { pattern = "x" }
=> namespace n = "u"
xsd:string {               }
=> 31 pattern

default namespace n = inherit
xsd:float
=> default namespace n = inherit
token    
=> 30 float token

xsd:float [ "x" ] start = xsd:float
=> xsd:float [ "x" ] start = token    
=> 26 float token

[ a [ datatypes x = "%" ] ] start = element e { x:float, xsd:float }
=> [ a [ datatypes x = "%" ] ] start = element e { x:float, token     }
=> 98 float token

[ a [ datatypes xsd = "u" ] ] a = xsd:float
=> [ a [ datatypes xsd = "u" ] ] a = token    
=> 34 float token

a = xsd:QName | "
=> a = xsd:QName | "
=> none

a = xsd:QName
=> a = token    
=> 4 QName token"##;

/// Files in the XML syntax. `@` stands for the declaration of the schema's namespace.
pub(crate) const MARKUP: &str =
    r##"<element name="a" @><data type="QName" datatypeLibrary="%"/></element>
=> <element name="a" @><data type="token" datatypeLibrary="%"/></element>
=> 74 QName token

<element name="a" datatypeLibrary="%" @><data type="ENTITIES"/><data type='ENTITY'/><data type="string"/></element>
=> <element name="a" datatypeLibrary="%" @><data type="IDREFS  "/><data type='NCName'/><data type="string"/></element>
=> 135 ENTITIES IDREFS; 158 ENTITY NCName

<element name="a" datatypeLibrary="%" @><data type="gDay"/><data type="gMonthDay"/></element>
=> <element name="a" datatypeLibrary="%" @><data type="gDay"/><data type="token    "/></element>
=> 154 gMonthDay token

<element name="a" datatypeLibrary="%" @><data type=" QName "/><data type=" gDay"/><value type="QName">x</value></element>
=> <element name="a" datatypeLibrary="%" @><data type="token  "/><data type="token"/><value type="QName">x</value></element>
=> 135 QName token; 157 gDay token

<element name="a" datatypeLibrary="u" @><data type="QName"/><group datatypeLibrary="%"><data type="QName"/><data type="QName" datatypeLibrary=""/></group></element>
=> <element name="a" datatypeLibrary="u" @><data type="QName"/><group datatypeLibrary="%"><data type="token"/><data type="QName" datatypeLibrary=""/></group></element>
=> 182 QName token

<element name="a" @><data type="QName"/></element>
=> <element name="a" @><data type="QName"/></element>
=> none

<r:element name="a" datatypeLibrary="%" xmlns:r="http://relaxng.org/ns/structure/1.0" xmlns="u"><r:data type="float"/><data type="float"/></r:element>
=> <r:element name="a" datatypeLibrary="%" xmlns:r="http://relaxng.org/ns/structure/1.0" xmlns="u"><r:data type="token"/><data type="float"/></r:element>
=> 151 float token

<element name="a" datatypeLibrary="%" @><x:y xmlns:x="u"><data type="QName"/></x:y><data type="QName"><x:y xmlns:x="u"/><param name="pattern">a</param></data></element>
=> <element name="a" datatypeLibrary="%" @><x:y xmlns:x="u"><data type="QName"/></x:y><data type="token"><x:y xmlns:x="u"/>                               </data></element>
=> 178 QName token; 203 pattern

<data type="string" datatypeLibrary="%" @><param name="pattern">[&amp;]
</param><param name="length">3</param></data>
=> <data type="string" datatypeLibrary="%" @>                             
        <param name="length">3</param></data>
=> 125 pattern

<data type="string" datatypeLibrary="%" @><param name="pattern">a<!-- c --></param><param datatypeLibrary="" name="pattern"/></data>
=> <data type="string" datatypeLibrary="%" @>                                                                                   </data>
=> 125 pattern; 166 pattern

<data type="string" datatypeLibrary="%" @><param name="pattern" type="b">a</param><param name="pattern"><text/></param><param name="pattern"><x:y xmlns:x="u"/></param></data>
=> <data type="string" datatypeLibrary="%" @><param name="pattern" type="b">a</param><param name="pattern"><text/></param><param name="pattern"><x:y xmlns:x="u"/></param></data>
=> none

<data type="string" datatypeLibrary="%" @><param name=" pattern " ns="">a</param></data>
=> <data type="string" datatypeLibrary="%" @>                                       </data>
=> 125 pattern

<data type="double" datatypeLibrary="%" @><param name="minInclusive">0</param></data>
=> <data type="token " datatypeLibrary="%" @>                                    </data>
=> 12 double token; 125 minInclusive

<group datatypeLibrary="%" @><data type="double"><param name="minInclusive">0</param><param name=" length">3</param></data><data type="QName"/></group>
=> <group datatypeLibrary="%" @><data type="double"><param name="minInclusive">0</param><param name=" length">3</param></data><data type="token"/></group>
=> 218 QName token

<data type="integer" datatypeLibrary="%" @><param name="minInclusive">0</param><param name="totalDigits">3</param></data>
=> <data type="integer" datatypeLibrary="%" @><param name="minInclusive">0</param>                                   </data>
=> 162 totalDigits

<data type="string" datatypeLibrary="%" @><param name="pattern">a</param><except><choice><data type="QName"/><data type="string"><param name="pattern">a</param></data></choice></except><param name="pattern">a</param></data>
=> <data type="string" datatypeLibrary="%" @>                               <except><choice><data type="QName"/><data type="string"><param name="pattern">a</param></data></choice></except><param name="pattern">a</param></data>
=> 125 pattern

<element name="a" datatypeLibrary="%" @><data type="QName"/>&x;</element>
=> <element name="a" datatypeLibrary="%" @><data type="QName"/>&x;</element>
=> none

<element name="a" datatypeLibrary="%" @><data type="QName"/>
=> <element name="a" datatypeLibrary="%" @><data type="QName"/>
=> none

﻿ <data datatypeLibrary="%" @ type="&#81;Name"/>
=> ﻿ <data datatypeLibrary="%" @ type="token    "/>
=> 121 QName token"##;

/// Files whose declarations name an encoding. `%` and `@` stand for the same.
pub(crate) const ENCODED: &str =
    r##"<?xml version="1.0" encoding="ISO-8859-1"?><data type="QName" datatypeLibrary="%" @/>
=> <?xml version="1.0" encoding="UTF-8"     ?><data type="token" datatypeLibrary="%" @/>
=> 29 encoding; 55 QName token

<?xml version='1.0' encoding = 'windows-1252' standalone="yes" ?><empty @/>
=> <?xml version='1.0' encoding = "UTF-8"        standalone="yes" ?><empty @/>
=> 31 encoding

<?xml version="1.0" encoding="iso-8859-15"?><empty @/>
=> <?xml version="1.0" encoding="UTF-8"      ?><empty @/>
=> 29 encoding

<?xml version="1.0" encoding="koi8-r"?>
<!-- > "a" --><empty @/>
=> <?xml version="1.0" encoding="UTF-8" ?>
<!-- > "a" --><empty @/>
=> 29 encoding

<?xml version="1.0" encoding="ISO-8859-1"?><!-- é --><empty @/>
=> <?xml version="1.0" encoding="ISO-8859-1"?><!-- é --><empty @/>
=> none

<?xml version="1.0" encoding="US-ASCII"?><data type="QName" datatypeLibrary="%" @/>
=> <?xml version="1.0" encoding="US-ASCII"?><data type="token" datatypeLibrary="%" @/>
=> 53 QName token

<?xml version="1.0" encoding="UTF-16"?><empty @/>
=> <?xml version="1.0" encoding="UTF-16"?><empty @/>
=> none

<?xml version="1.0" encoding="ISO-8859-"?><empty @/>
=> <?xml version="1.0" encoding="ISO-8859-"?><empty @/>
=> none

<?xml encoding="ISO-8859-1" version="1.0"?><empty @/>
=> <?xml encoding="ISO-8859-1" version="1.0"?><empty @/>
=> none

<?xml version="1.0" standalone="ISO-8859-1"?><empty @/>
=> <?xml version="1.0" standalone="ISO-8859-1"?><empty @/>
=> none

<?xml version="1.0" encoding="ISO-8859-1" standalone="maybe"?><empty @/>
=> <?xml version="1.0" encoding="ISO-8859-1" standalone="maybe"?><empty @/>
=> none

<empty ns="a" x="ISO-8859-1" @/>
=> <empty ns="a" x="ISO-8859-1" @/>
=> none

a = element b { "a" | "ISO-8859-1" } >
=> a = element b { "a" | "ISO-8859-1" } >
=> none"##;
